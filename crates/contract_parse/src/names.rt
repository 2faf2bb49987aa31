//! Names: those that a text declares, and those that are bound round a term.
ghost use Rattle.std.specs.Prelude.{◌≡◌, ◌≤◌, ◌+◌, ◌<◌, ◌^◌, IfSome, length};
ghost use Rattle.indexmap.specs.IndexMap.{index_map_len, keys};
ghost use Rattle.indexmap.specs.IndexSet.{index_set_len};
ghost use Rattle.term_model.specs.Limits.{most_height_of_code};
ghost use Rattle.contract_grammar.specs.Names.{back_to, index_in, names_in};

use crate::words::are_same;
use indexmap::{IndexMap, IndexSet};
use term_model::{Name, Scope};

/// How many binders stand between a name and its own.
pub fn back_to(bound: &Scope<&[u8]>, name: &[u8]) -> Option<u32>
    requires { length (names_in bound.now) ≤ most_height_of_code + 1 }
    ensures value { result ≡ back_to (names_in bound.now) name.now }
    ensures within { IfSome result (λ back. back < length (names_in bound.now)) }
{
    match bound {
        Scope::Empty => None,
        Scope::Bound { held: inner, outer } => {
            if *inner == name {
                Some(0)
            } else {
                match back_to(outer, name) {
                    Some(back) => Some(back + 1),
                    None => None,
                }
            }
        }
    }
}

// So many names are looked through one by one, which costs less than a look by their hash.
const FEW: usize = 8;

// The place of a name among few.
fn place_among(names: &[Name], text: &[u8]) -> Option<usize>
    ensures value { result ≡ index_in names.now text.now }
    ensures within { IfSome result (λ place. place < length names.now) }
{
    names.iter().position(|name| are_same(text, name.text()))
}

// The same as an index.
fn index_among(names: &[Name], text: &[u8]) -> Option<u32>
    requires { length names.now < 2 ^ 32 }
    ensures { result ≡ index_in names.now text.now }
{
    match place_among(names, text) {
        Some(place) => Some(place as u32),
        None => None,
    }
}

/// The index of a name in a set.
pub fn index_in_set(names: &IndexSet<Name>, text: &[u8]) -> Option<u32>
    requires { index_set_len names.now < 2 ^ 32 }
    ensures { result ≡ index_in names.now.keys text.now }
{
    if names.len() <= FEW {
        return index_among(names.as_slice(), text);
    }
    match names.get_index_of(text) {
        Some(index) => Some(index as u32),
        None => None,
    }
}

/// The index of a name in a map.
pub fn index_in_map<V>(names: &IndexMap<Name, V>, text: &[u8]) -> Option<u32>
    requires { index_map_len names.now < 2 ^ 32 }
    ensures { result ≡ index_in (keys names.now) text.now }
{
    if names.len() <= FEW {
        return index_among(names.keys().as_slice(), text);
    }
    match names.get_index_of(text) {
        Some(index) => Some(index as u32),
        None => None,
    }
}
