//! The templates of dates, in rising order.

ghost use Rattle.std.specs.Prelude.{◌≡◌, ◌≤◌, [], IfOk, length, insert};
ghost use Rattle.payoff_terms.specs.TemplateDates.{insert_name, insert_names};

use decimal::NoMemory;
use std::alloc::Global;

// The index of a template among others in rising order.
fn index_of(names: &[u32], name: u32) -> usize
    ensures within { result ≤ length names.now }
    ensures inserts { insert names.now result name ≡ insert_name name names.now }
{
    for i in 0..names.len() {
        if name <= names[i] {
            return i;
        }
    }
    names.len()
}

/// The templates with one more.
pub fn with_name(alloc: Global, names: &[u32], name: u32) -> Result<Vec<u32>, NoMemory>
    ensures { IfOk result (λ v. v.items ≡ insert_name name names.now) }
{
    let mut more = Vec::from_slice(alloc, names)?;
    more.insert(index_of(names, name), name)?;
    Ok(more)
}

/// Puts templates into rising order, each as often as it stands there.
pub fn put_in_order(names: &mut Vec<u32>)
    ensures { names.new.items ≡ insert_names names.old.items [] }
{
    names.sort_unstable();
}
