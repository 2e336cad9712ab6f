//! The text of duals.
ghost use Rattle.std.specs.Prelude.{◌≡◌, ◌++◌, ◌<◌, [], length, IfOk, OnOk, flat_map};
ghost use Rattle.std.specs.List.{range_with_len};
ghost use Rattle.report.specs.DualsText.{duals_text_of, customer_line, slack_line, amount_line, amount_text, ArePrintable, FitsU64};

use dual_value::{Duals, Path, bound, slack};
use fixed_cost::push_micro;
use instance_store::{Instance, NoMemory};
use number_words::push_count;
use std::alloc::{AllocError, Global};

/// The text of duals of scale 1: the bound that they give where nothing is decided yet, then a line
/// for each customer with its dual, and one for each site with its slack, both by ascending id.
/// Numbers are in units with six decimals.
///
/// Only want of memory fails.
pub fn duals_text(alloc: Global, inst: &Instance, duals: &Duals) -> Result<Vec<u8>, NoMemory>
    requires { ArePrintable inst.now duals.now }
    ensures { IfOk result (λ text. text.items ≡ duals_text_of inst.now duals.now) }
{
    let root = Path::root(alloc);
    let mut text = Vec::from_slice(alloc, b"bound ")?;
    push_signed(&mut text, bound(inst, &root, duals))?;
    text.extend_from_slice(b"\n")?;
    push_customers(&mut text, inst, duals)?;
    push_slacks(&mut text, inst, &root, duals)?;
    Ok(text)
}

fn push_customers(text: &mut Vec<u8>, inst: &Instance, duals: &Duals) -> Result<(), AllocError>
    requires { ArePrintable inst.now duals.now }
    ensures { OnOk result (text.new.items ≡ text.old.items ++ flat_map (customer_line inst.now duals.now) (range_with_len 0 (length inst.now.customers))) }
{
    for cust in 0..inst.custs() {
        let id = inst.cust_id(cust).number();
        push_line(text, b"customer ", id, duals.v(cust))?;
    }
    Ok(())
}

fn push_slacks(
    text: &mut Vec<u8>,
    inst: &Instance,
    root: &Path,
    duals: &Duals,
) -> Result<(), AllocError>
    requires printable { ArePrintable inst.now duals.now }
    requires root { root.now ≡ [] }
    ensures { OnOk result (text.new.items ≡ text.old.items ++ flat_map (slack_line inst.now duals.now) (range_with_len 0 (length inst.now.sites))) }
{
    for site in 0..inst.sites() {
        let id = inst.site_id(site).number();
        push_line(text, b"site ", id, slack(inst, root, duals, site))?;
    }
    Ok(())
}

fn push_line(text: &mut Vec<u8>, word: &[u8], id: u32, micro: i128) -> Result<(), AllocError>
    requires { FitsU64 micro }
    ensures { OnOk result (text.new.items ≡ text.old.items ++ amount_line word.now id micro) }
{
    text.extend_from_slice(word)?;
    push_count(text, u64::from(id))?;
    text.extend_from_slice(b" ")?;
    push_signed(text, micro)?;
    text.extend_from_slice(b"\n")
}

fn push_signed(text: &mut Vec<u8>, micro: i128) -> Result<(), AllocError>
    requires { FitsU64 micro }
    ensures { OnOk result (text.new.items ≡ text.old.items ++ amount_text micro) }
{
    push_micro(text, micro as u64)
}
