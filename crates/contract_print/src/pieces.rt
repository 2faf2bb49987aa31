//! The pieces that every text is made of. Where memory runs out, what is appended is thrown away by
//! the calls above: so nothing is said of it here.

ghost use Rattle.std.specs.Prelude.{◌≡◌, ◌++◌, OnOk};
ghost use Rattle.contract_print.specs.TermTexts.{bound_name, number_text};

use decimal::{NoMemory, write};
use std::alloc::Global;

/// Appends bytes.
pub fn append(out: &mut Vec<u8>, text: &[u8]) -> Result<(), NoMemory>
    ensures { OnOk result (out.new.items ≡ out.old.items ++ text.now) }
{
    out.extend_from_slice(text)?;
    Ok(())
}

/// Appends a whole number.
pub fn append_number(alloc: Global, out: &mut Vec<u8>, number: u32) -> Result<(), NoMemory>
    ensures { OnOk result (out.new.items ≡ out.old.items ++ number_text number) }
{
    write(alloc, out, number as i128, 0)
}

/// Appends the name of what is bound with so many binders round it.
pub fn append_bound_name(alloc: Global, out: &mut Vec<u8>, binders: u32) -> Result<(), NoMemory>
    ensures { OnOk result (out.new.items ≡ out.old.items ++ bound_name binders) }
{
    append(out, b"v")?;
    append_number(alloc, out, binders)
}
