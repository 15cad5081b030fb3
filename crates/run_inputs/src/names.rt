//! The names of the files of a command.

ghost use Rattle.std.specs.Prelude.{◌≡◌, map, length};
ghost use Rattle.run_inputs.specs.Names.{is_new as new_name, are_names as names_of};

/// Whether names are not empty, and no two of them one.
pub fn are_names(names: &[&str]) -> bool
    ensures { result ≡ names_of (map (λ name. name.now) names.now) }
{
    match names {
        [] => true,
        [name, rest @ ..] => is_new(name, rest) && are_names(rest),
    }
}

/// Whether the name is not empty, and none of the others.
fn is_new(name: &str, others: &[&str]) -> bool
    ensures { result ≡ new_name name.now (map (λ other. other.now) others.now) }
{
    match others {
        [] => !name.is_empty(),
        [other, rest @ ..] => name != *other && is_new(name, rest),
    }
}
