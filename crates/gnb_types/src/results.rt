//! Results: a value that goes along with what is asked.

ghost use Rattle.std.specs.Prelude.{◌≡◌, Ok, Err, IfOk, IfErr};

/// What was asked, with a value that is owned meanwhile, which is let go where the asking failed. A body that gives what it owns to this call
/// has nothing to drop at its own `?`: proving such a body costs much less (docs/adding.md).
pub fn beside<A, T: Drop, E>(asked: Result<A, E>, value: T) -> Result<(A, T), E>
    ensures ok { IfOk result (λ both. asked ≡ Ok both.0) }
    ensures kept { IfOk result (λ both. both.1 ≡ value) }
    ensures err { IfErr result (λ error. asked ≡ Err error) }
{
    match asked {
        Ok(answer) => Ok((answer, value)),
        Err(error) => Err(error),
    }
}
