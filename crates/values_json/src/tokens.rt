//! Trees of JSON as the tokens that a `json::Writer` is given. The function does nothing: its contract is the laws.

ghost use Rattle.std.specs.Prelude.{◌≡◌, ◌≤◌, Some};
ghost use Rattle.json.specs.Print.{print};
ghost use Rattle.serde_json.specs.Data.{Data, depth};
ghost use Rattle.serde_json.specs.Read.{max_depth, read};
ghost use Rattle.serde_json.specs.Written.{compact_text};
ghost use Rattle.json_defs.specs.shown_defs.Order.{IsOrdered};
ghost use Rattle.values_json.specs.tokens.Whole.{IsWhole};
ghost use Rattle.values_json.specs.tokens.Written.{tokens_of};

/// The tokens of a tree are printed as its compact text, as `serde_json` prints it. Where its numbers are integers of 64 bits, the members
/// of each object are in order and it is no deeper than what is read, the text is read again as the tree.
pub fn written_trees_read_again()
    ensures text { (d : Data) → print (tokens_of d) ≡ compact_text d }
    ensures again { (d : Data)
        → IsOrdered d → IsWhole d → depth d ≤ max_depth → read (compact_text d) ≡ Some d }
{}
