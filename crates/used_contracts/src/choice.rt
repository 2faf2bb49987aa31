//! What a command asks of the contracts of a text.

ghost use Rattle.std.specs.Prelude.{◌≡◌};
ghost use Rattle.term_model.specs.Declarations.{declarations};
ghost use Rattle.term_model.specs.Instances.{declared_numbers};

use term_model::{Decls, Setting};

/// What a command asks of the contracts of a text: the numbers at which they are tried, the
/// defaults; the name, if any, that is to be that of one; and whether only that one is used.
#[derive(Clone, Copy)]
pub struct Choice<'a> {
    pub decls: &'a Decls,
    pub setting: &'a Setting,
    pub named: Option<&'a str>,
    pub only: bool,
    pub ghost at_defaults: { setting.now.days.items ≡ declared_numbers (declarations decls.now) },
}
