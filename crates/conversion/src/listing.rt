ghost use Rattle.std.specs.Prelude.{◌≡◌, ◌++◌, IfOk, string_bytes, OnOk};
ghost use Rattle.sheet.specs.Sheets.{drawing};
ghost use Rattle.sheet.specs.Views.{route_of};
ghost use Rattle.conversion.specs.Listing.{path_line, claim_line, claim_lines, listed, converted};
ghost use Rattle.conversion.specs.Offers.{whole_yuan};

use reader::read::Reader;
use rules::price::Yuan;
use sheet::path::Path;
use sheet::sheet::Sheet;
use std::alloc::{AllocError, Global};

// Adds a path's number, ends, yield and charge.
fn add_route(out: &mut String, number: usize, path: &Path) -> Result<(), AllocError>
    ensures { OnOk result (string_bytes out.new ≡ string_bytes out.old ++ path_line number (route_of path.now)) }
{
    let (from, to) = (path.from, path.to);
    let watts = path.yields.watts;
    let charge = path.charge.billionths;
    writeln!(out, "path {number} {from} {to} {watts} {charge}")
}

// Adds what a bid is worth at the sending end of a path.
fn add_claim(out: &mut String, number: usize, path: &Path, bid: Yuan) -> Result<(), AllocError>
    ensures { OnOk result (string_bytes out.new ≡ string_bytes out.old ++ claim_line number (route_of path.now) bid.whole) }
{
    let yuan = bid.whole;
    let claim = path.claim(bid).0;
    writeln!(out, "claim {number} {yuan} {claim}")
}

// Adds a path with the claims of all bids.
fn add_path(out: &mut String, number: usize, path: &Path, bids: &[Yuan]) -> Result<(), AllocError>
    ensures { OnOk result (string_bytes out.new ≡ string_bytes out.old ++ (path_line number (route_of path.now) ++ claim_lines number (route_of path.now) (whole_yuan bids.now))) }
{
    add_route(out, number, path)?;
    for bid in bids {
        add_claim(out, number, path, *bid)?;
    }
    Ok(())
}

// Each path of a sheet, with the claims of all bids.
fn listing(heap: Global, sheet: &Sheet, bids: &[Yuan]) -> Result<String, AllocError>
    ensures { IfOk result (λ s. string_bytes s ≡ listed (drawing sheet.now) (whole_yuan bids.now)) }
{
    let mut out = String::new(heap);
    for (number, path) in sheet.paths().iter().enumerate() {
        add_path(&mut out, number, path, bids)?;
    }
    Ok(out)
}

// What is printed of a case text: each path with the claims of all bids, or the text's fault.
pub fn convert(heap: Global, text: &[u8], bids: &[Yuan]) -> Result<String, AllocError>
    ensures { IfOk result (λ s. string_bytes s ≡ converted text.now (whole_yuan bids.now)) }
{
    match Reader::new(heap)?.read(text) {
        Ok(sheet) => listing(heap, &sheet, bids),
        Err(fault) => fault.report(heap),
    }
}
