// The calls on terms and on their documents, by a handle.
ghost use Rattle.read_checked.specs.Promise.{DfChecked, DocsChecked};

use crate::named::named_list;
use common::widths::long;
use handle::handle::{Handle, layout_of, usable};
use read_terms::find::find_term;
use read_terms::terms::{check_name, df, docs_with_term, fill_docs};
use segment::refusal::Refusal;

// How many documents have a term, as the directory stores it; 0 for an unknown term. No list is decoded at either level.
pub fn df_checked(bytes: &[u8], h: Handle, name: &[u8]) -> Result<u32, Refusal>
    ensures { DfChecked bytes.now h name.now result }
{
    if !usable(bytes, h) {
        return df(bytes, name);
    }
    check_name(name)?;
    match find_term(bytes, layout_of(h), name) {
        Some(list) => Ok(list.df),
        None => Ok(0),
    }
}

// How many documents have a term, and their ids in rising order; none for an unknown term.
pub fn docs_with_term_checked(
    bytes: &[u8],
    h: Handle,
    name: &[u8],
    ids: &mut [u32],
) -> Result<usize, Refusal>
    ensures { DocsChecked bytes.now h name.now ids.old result ids.new }
{
    if !usable(bytes, h) {
        return docs_with_term(bytes, name, ids);
    }
    let Some(list) = named_list(bytes, h, name)? else {
        return Ok(0);
    };
    let n = long(list.df);
    if ids.len() < n {
        return Err(Refusal::NoRoom(1, n));
    }
    fill_docs(bytes, list.start, list.df, ids);
    Ok(n)
}
