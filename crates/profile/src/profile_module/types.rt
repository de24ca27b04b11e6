//! The named types of modules: which of the profile's a module lacks or has otherwise, and which further ones it has.

ghost use Rattle.std.specs.Prelude.{◌≡◌, option_map, map, length};
ghost use Rattle.asn1_defs.specs.Targets.{type_ids};
ghost use Rattle.profile.specs.profile_module.inside.Same.{has_same, first_other, is_among, first_new};

use crate::profile_module::members::is_type_alike;
use asn1_module::Module;
use asn1_tokens::is_text;

/// Both modules have a type of this name, and write it alike.
fn has_same(profile: &Module, module: &Module, name: &[u8]) -> bool
    ensures { result ≡ has_same profile.now module.now name.now }
{
    match (profile.find(name), module.find(name)) {
        (Some(a), Some(b)) => is_type_alike(profile, a, module, b),
        _ => false,
    }
}

/// The first of these names that isn't that of the same type in both modules.
#[tactic(auto, unfolding(crate::specs::profile_module::inside::Same::first_other))]
pub fn first_other(
    names: &[&'static [u8]],
    profile: &Module,
    module: &Module,
) -> Option<&'static [u8]>
    ensures { option_map (λ name. name.now) result ≡ first_other profile.now module.now (map (λ name. name.now) names.now) }
{
    for name in names {
        if !has_same(profile, module, name) {
            return Some(name);
        }
    }
    None
}

#[tactic(auto, unfolding(crate::specs::profile_module::inside::Same::is_among))]
fn is_among(name: &[u8], names: &[&'static [u8]]) -> bool
    ensures { result ≡ is_among name.now (map (λ other. other.now) names.now) }
{
    for other in names {
        if is_text(name, other) {
            return true;
        }
    }
    false
}

/// The first type of the module, in the text's order, whose name isn't among these.
#[tactic(auto, unfolding(crate::specs::profile_module::inside::Same::first_new))]
pub fn first_new<'a>(names: &[&'static [u8]], module: &'a Module) -> Option<&'a [u8]>
    ensures { option_map (λ name. name.now) result ≡ first_new (map (λ name. name.now) names.now) module.now.assignments (type_ids module.now.assignments) }
{
    for i in 0..module.len() {
        let name = module.type_name(module.at(i));
        if !is_among(name, names) {
            return Some(name);
        }
    }
    None
}
