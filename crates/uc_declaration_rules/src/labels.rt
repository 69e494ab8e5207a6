//! Labels that are brought in twice.

ghost use Rattle.std.specs.Prelude.{◌≡◌, List};
ghost use Rattle.std.specs.Option.{option_map};
ghost use Rattle.uc_syntax.specs.declared.declaration.Module.{Module};
ghost use Rattle.uc_names.specs.Senses.{entry_meant, sense_meant};
ghost use Rattle.uc_rules.specs.Names.{is_taken, same_label};

use uc_names::{Entry, Sense};

/// Whether the name of an entry is taken: it has an earlier entry, which isn't the same label.
pub(crate) fn is_taken(entry: Entry<'_>, earlier: Option<Entry<'_>>) -> bool
    ensures { (ms : List Module) → result ≡ is_taken (entry_meant ms entry.entry) (option_map (entry_meant ms) earlier.entry) }
{
    match earlier {
        None => false,
        Some(earlier) => !is_same_label(earlier.sense, entry.sense),
    }
}

/// Whether two names stand for one label of one enum.
fn is_same_label(sense: Sense<'_>, other: Sense<'_>) -> bool
    ensures { (ms : List Module) → result ≡ same_label (sense_meant ms sense.entry) (sense_meant ms other.entry) }
{
    match sense {
        Sense::Label(label) => match other {
            Sense::Label(other) => {
                label.enum_number == other.enum_number && label.place == other.place
            }
            _ => false,
        },
        _ => false,
    }
}
