//! What the text of a certificate asks of the statuses of sites.

ghost use Rattle.std.specs.Prelude.{◌≡◌, codes, if◌then◌else◌};
ghost use Rattle.certificate_lines.specs.Text.{is_all_free, is_status};

use instance_store::Instance;
use location_terms::SiteStatus;

/// The version of the text of an instance, as its first line has it: 1 where each site is free, and
/// else 2.
pub fn version(inst: &Instance) -> &'static [u8]
    ensures { result.now ≡ (if is_all_free inst.now then codes "1" else codes "2") }
{
    if is_all_free(inst) { b"1" } else { b"2" }
}

/// Whether no site must be open or closed.
pub fn is_all_free(inst: &Instance) -> bool
    ensures { result ≡ is_all_free inst.now }
{
    for i in 0..inst.sites() {
        if !is_status(inst.status(i), SiteStatus::Free) {
            return false;
        }
    }
    true
}

/// Whether a site's status is the one that is wanted.
pub fn is_status(status: SiteStatus, wanted: SiteStatus) -> bool
    ensures { result ≡ is_status wanted status }
{
    status == wanted
}
