// The words that bind names to files.
ghost use Rattle.std.specs.Prelude.{◌≡◌};
ghost use Rattle.std.specs.Option.{option_copied};
ghost use Rattle.table_open.specs.Words as spec;

/// The file that the word binds the name to.
#[tactic(auto, unfolding(crate::specs::Words::bound_file))]
pub(crate) fn bound_file<'a>(word: &'a str, name: &[u8]) -> Option<&'a str>
    ensures { option_copied result ≡ spec.bound_file name.now word.entry.now }
{
    let (bound, file) = word.split_once('=')?;
    if bound.as_bytes() == name {
        Some(file)
    } else {
        None
    }
}
