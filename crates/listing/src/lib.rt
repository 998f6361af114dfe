#![tactic(auto)]
// The listing of a program's input: a row for each record of each core, or why there is none.
ghost use Rattle.std.specs.Prelude.{◌≡◌, IfOk, string_bytes};
ghost use Rattle.listing.specs.Listings.{bundle_text, listing_text};

mod parts;
mod records;
mod row;

use input::{Input, bundle_part, check_input};
use model::Cores;
use parts::{Rows, Totals, push_all};
pub use row::Row;
use std::alloc::{AllocError, Global};

// Lists the traces of so many cores.
fn list(heap: Global, cores: Cores, rows: Rows) -> Result<String, AllocError>
    ensures { IfOk result (λ t. string_bytes t ≡ bundle_text rows.entry.bytes.now cores.count rows.entry.bundle) }
{
    let mut text = String::from_str(heap, "core,index,gap,kind,line,word\n")?;
    push_all(&mut text, cores, &rows)?;
    text.push_str("total")?;
    push_all(&mut text, cores, &Totals(rows.bundle))?;
    text.push_str("\n")?;
    Ok(text)
}

// The text that is printed for an input: its listing, or one line that says why it is refused. Only want of memory
// gives an error.
pub fn listing(heap: Global, bytes: &[u8]) -> Result<String, AllocError>
    ensures { IfOk result (λ t. string_bytes t ≡ listing_text bytes.now) }
{
    match check_input(bytes) {
        Ok(Input { settings, bundle }) => {
            let bytes = bundle_part(bytes);
            list(heap, settings.cores, Rows { bytes, bundle })
        },
        Err(refusal) => format!(in heap; "{refusal}\n"),
    }
}
