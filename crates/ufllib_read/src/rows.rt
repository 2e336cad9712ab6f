//! The parts of a file: its head, and a row for each facility.

ghost use Rattle.std.specs.Prelude.{◌≡◌, ◌+◌, ◌≤◌, None, replicate, All, IsSome, IfOk, IsOkUnless};
ghost use Rattle.location_terms.specs.Instance.{IsValid, AreSizes};
ghost use Rattle.location_terms.specs.Plain.{IsPlain};
ghost use Rattle.fixed_cost.specs.Reading.{many_at, Reads, ReadsForm, Means};
ghost use Rattle.instance_store.specs.Numbered.{AreSiteRows};
ghost use Rattle.ufllib_read.specs.Ufl.{head_at, site_lanes_at, ufl_instance, ufl_at};

use fixed_cost::{FileFault, FileKind, FormFault, WordReader};
use instance_store::{Instance, ListedSite, SiteLanes};
use location_terms::MAX_SITES;
use std::alloc::Global;
use table_words::{TableSizes, read_lanes, read_sizes};

/// The whole file behind its title.
#[tactic(auto, unfolding(crate::specs::Ufl::ufl_at))]
pub(crate) fn instance(alloc: Global, mut reader: WordReader<'_>) -> Result<Instance, FormFault>
    ensures meaning { Means (λ inst. inst) result (ufl_at reader.entry) }
    ensures valid { IfOk result IsValid }
    ensures plain { IfOk result IsPlain }
{
    let sizes = read_head(&mut reader)?;
    let sites = read_sites(alloc, &mut reader, sizes.sites, sizes.custs)?;
    reader.finish()?;
    store(alloc, sizes.custs, sites)
}

/// The head of the file.
#[tactic(auto, unfolding(crate::specs::Ufl::head_at))]
fn read_head(reader: &mut WordReader<'_>) -> Result<TableSizes, FileFault>
    ensures read { Reads (λ sizes. (sizes.sites, sizes.custs)) result reader.new (head_at reader.old) }
    ensures within { IfOk result (λ sizes. AreSizes sizes.sites sizes.custs) }
{
    let sizes = read_sizes(reader)?;
    reader.exactly(FileKind::NotZero, 0)?;
    Ok(sizes)
}

/// A row for each facility.
fn read_sites(
    alloc: Global,
    reader: &mut WordReader<'_>,
    sites: u32,
    custs: u32,
) -> Result<Vec<SiteLanes>, FormFault>
    requires { sites ≤ MAX_SITES }
    ensures { ReadsForm (λ rows. rows.items) result reader.new (many_at (site_lanes_at custs) 1 sites reader.old) }
{
    let mut rows = Vec::with_capacity(alloc, sites as usize)?;
    for number in 1..sites + 1 {
        let row = read_site(alloc, reader, number, custs)?;
        rows.push(row)?;
    }
    Ok(rows)
}

/// The facility of this number.
#[tactic(auto, unfolding(crate::specs::Ufl::site_lanes_at))]
fn read_site(
    alloc: Global,
    reader: &mut WordReader<'_>,
    number: u32,
    custs: u32,
) -> Result<SiteLanes, FormFault>
    ensures { ReadsForm (λ row. row) result reader.new (site_lanes_at custs number reader.old) }
{
    reader.exactly(FileKind::BadIndex, number)?;
    let fixed = reader.amount()?.micro();
    let lanes = read_lanes(alloc, reader, custs)?;
    let site = ListedSite { fixed, cap: None };
    Ok(SiteLanes { site, lanes })
}

/// The instance of the facilities that were read, with so many cities.
fn store(alloc: Global, custs: u32, sites: Vec<SiteLanes>) -> Result<Instance, FormFault>
    requires rows { AreSiteRows sites.items (replicate custs 0) }
    requires no_caps { All (λ s. s.site.cap ≡ None) sites.items }
    requires there { All (λ s. All IsSome s.lanes) sites.items }
    ensures instance { IfOk result (λ inst. inst ≡ ufl_instance custs sites.items) }
    ensures memory { IsOkUnless result FormFault.NoMemory }
    ensures valid { IfOk result IsValid }
    ensures plain { IfOk result IsPlain }
{
    let demands = vec![in alloc; 0; custs as usize]?;
    Instance::numbered_by_site(alloc, sites, demands).map_err(|_| FormFault::NoMemory)
}
