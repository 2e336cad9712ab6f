//! A certificate written to a file.
ghost use Rattle.std.specs.Prelude.{◌≡◌, ◌<◌, ◌++◌, OnOk, OnErr, IsErrOf, IfSome, slice_get};
ghost use Rattle.std.specs.Option.{option_copied};
ghost use Rattle.location_terms.specs.Tree.{nodes_of};
ghost use Rattle.branch_tree.specs.Preorder.{flat};
ghost use Rattle.shelf_port.specs.Files.{with_file, LeavesPrefix, Rose, NeverFalls};
ghost use Rattle.certificate_lines.specs.Text.{certificate_text, text_of_lines};
ghost use Rattle.certificate_text.specs.Cert.{certificate_lent};
ghost use Rattle.certificate_text.specs.Written.{head_lines, entry_text};

use crate::CertificateRef;
use crate::print::{
    push_claim, push_header, push_leaf, push_plan, push_sizes, push_split, push_statuses,
};
use branch_tree::Tree;
use instance_store::Instance;
use location_terms::Claim;
use plan_meaning::Plan;
use shelf_port::{PutFault, Shelf, append_whole};
use std::alloc::{AllocError, Global};

/// From how many bytes on what is gathered goes to the file.
const PIECE: usize = 65_536;

/// Writes the text of a certificate to the named file, whatever it held before. The text goes there in
/// pieces, so that no more of it is held than one piece and the lines of one leaf.
///
/// `Failed` comes where a write failed, `NoMemory` where there was none. After either the file is as
/// before, or holds a prefix of the text.
pub fn write_cert<H: Shelf>(
    alloc: Global,
    shelf: &mut H,
    name: &str,
    inst: &Instance,
    cert: CertificateRef<'_>,
) -> Result<(), PutFault>
    ensures ok { OnOk result (H.files shelf.new ≡ with_file (H.files shelf.old) name.now
        (certificate_text inst.now (certificate_lent cert.entry))) }
    ensures err { OnErr result (LeavesPrefix (H.files shelf.old) (H.files shelf.new) name.now
        (certificate_text inst.now (certificate_lent cert.entry))) }
    ensures failed { IsErrOf result PutFault.Failed →
        Rose (H.write_faults shelf.old name.now) (H.write_faults shelf.new name.now) }

    ensures reads { NeverFalls (H.read_faults shelf.old) (H.read_faults shelf.new) }
    ensures writes { NeverFalls (H.write_faults shelf.old) (H.write_faults shelf.new) }
{
    let mut text = Vec::new(alloc);
    push_head(&mut text, inst, cert.claim, cert.plan)?;
    shelf.create(name)?;
    for at in 0..cert.tree.nodes() {
        push_node(&mut text, cert.tree, at)?;
        if text.len() >= PIECE {
            append_whole(shelf, name, &text)?;
            text.clear();
        }
    }
    text.extend_from_slice(b"end\n")?;
    append_whole(shelf, name, &text)
}

// The lines before the tree.
fn push_head(
    text: &mut Vec<u8>,
    inst: &Instance,
    claim: Claim,
    plan: Option<&Plan>,
) -> Result<(), AllocError>
    ensures { OnOk result (text.new.items ≡ text.old.items ++ text_of_lines (head_lines inst.now claim (option_copied plan.entry))) }
{
    push_header(text, inst)?;
    push_sizes(text, inst)?;
    push_statuses(text, inst)?;
    push_claim(text, claim)?;
    push_plan(text, plan)
}

// The lines of the node at a place in preorder.
fn push_node(text: &mut Vec<u8>, tree: &Tree, at: u32) -> Result<(), AllocError>
    requires { at < nodes_of tree.now }
    ensures { OnOk result (IfSome (slice_get (flat tree.now.root) at)
        (λ e. text.new.items ≡ text.old.items ++ entry_text tree.now.sites e)) }
{
    match tree.duals(at) {
        Some(duals) => push_leaf(text, tree.site_ids(), duals),
        None => push_split(text, tree.node(at)),
    }
}
