//! What is kept of nodes, by their places in the network, so that its table of names is the only one.

ghost use Rattle.std.specs.Prelude.{◌≡◌, true, OnOk, OnErr};
ghost use Rattle.exchange_check.specs.Inner.Kept.{has_site, moved, moved_at, site_in};

use crate::facts::Site;
use crate::lookup::Lookup;
use crate::refusal::CheckFault;
use network_model::{Event, Name};

/// What is kept of a node after an event of it at the line of this number.
fn moved(event: &Event, number: u64, site: Site) -> Site
    ensures { result ≡ moved event.now number site }
{
    match event {
        Event::Sync { .. } => Site {
            syncs: site.syncs.next(),
            last_sync: Some(number),
            ..site
        },
        Event::SyncOne { .. } => Site {
            syncs: site.syncs.next(),
            ..site
        },
        Event::Request { .. } => Site {
            requests: site.requests.next(),
            last_request: Some(number),
            ..site
        },
        Event::SetMaster { master, .. } => Site {
            set_master: Some((*master, number)),
            ..site
        },
        Event::StepClock { diff, .. } => Site {
            difference: *diff,
            last_step: Some(number),
            ..site
        },
        _ => site,
    }
}

/// What is kept of a node.
pub(crate) fn site_in(sites: &[Site], nodes: &Lookup<'_>, name: &Name) -> Site
    ensures { result ≡ site_in sites.now nodes.now name.now }
{
    let Some(place) = nodes.index_of(name) else {
        return Site::default();
    };
    match sites.get(place) {
        Some(site) => *site,
        None => Site::default(),
    }
}

/// An event at a node, at the line of this number. The first one takes room for all nodes.
pub(crate) fn move_site(
    sites: &mut Vec<Site>,
    nodes: &Lookup<'_>,
    event: &Event,
    number: u64,
) -> Result<(), CheckFault>
    ensures moved { has_site nodes.now event.now ≡ true → OnOk result
        (site_in sites.new.items nodes.now ≡ moved_at event.now number (site_in sites.old.items nodes.now)) }
    ensures unchanged { OnErr result (site_in sites.new.items nodes.now ≡ site_in sites.old.items nodes.now) }
{
    let Some(place) = nodes.index_of(&event.node()) else {
        return Ok(());
    };
    let missing = nodes.len().saturating_sub(sites.len());
    for _ in 0..missing {
        if sites.push(Site::default()).is_err() {
            return Err(CheckFault::Memory);
        }
    }
    let site = sites[place];
    sites[place] = moved(event, number, site);
    Ok(())
}
