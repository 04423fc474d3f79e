//! Which port or master is said by a number or by a name.
ghost use Rattle.std.specs.Prelude.{◌≡◌, option_map, string_bytes};
ghost use Rattle.check_description.specs.Called.{is_called as has_name, one_numbered as numbered_of};

/// Whether one with this name, if it has one, is called so.
pub(crate) fn is_called(own: &Option<String>, name: &str) -> bool
    ensures { result ≡ has_name name.now (option_map string_bytes own.now) }
{
    match own {
        Some(own) => own.as_str() == name,
        None => false,
    }
}

/// The one of this number, if there are more than that.
pub(crate) fn one_numbered(count: usize, number: i64) -> Option<usize>
    ensures { result ≡ numbered_of count number }
{
    match usize::try_from(number) {
        Ok(number) if number < count => Some(number),
        _ => None,
    }
}
