ghost use Rattle.std.specs.Prelude.{◌≡◌, ◌==◌};
ghost use Rattle.std.specs.List.{list_any};
ghost use Rattle.std.specs.Option.{option_copied};
ghost use Rattle.acl_host.specs.Files.{rest_behind, only_name};

// What stands behind the prefix in a longer path.
pub(crate) fn behind<'a>(prefix: &str, path: &'a str) -> Option<&'a str>
    ensures { option_copied result ≡ rest_behind prefix.now path.now }
{
    match path.strip_prefix(prefix) {
        Some(rest) if !rest.is_empty() => Some(rest),
        _ => None,
    }
}

// The name of a file directly behind the prefix.
pub(crate) fn name_behind<'a>(prefix: &str, path: &'a str) -> Option<&'a str>
    ensures { option_copied result ≡ only_name (rest_behind prefix.now path.now) }
{
    let rest = behind(prefix, path)?;
    if has_slash(rest.as_bytes()) {
        return None;
    }
    Some(rest)
}

fn has_slash(path: &[u8]) -> bool
    ensures { result ≡ list_any (λ b. b == 47) path.now }
{
    path.iter().any(|b| *b == b'/')
}
