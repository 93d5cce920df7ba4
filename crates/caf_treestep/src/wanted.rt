//! What a statement names, with its numbers evaluated from the left. `at` is the place of the first value that a part
//! holds, and then goes past its held values.

ghost use Rattle.std.specs.Prelude.{◌≡◌, ◌+◌, ◌≤◌, OnOk, length, sum_by};
ghost use Rattle.caf_program.specs.Expressions.{count_all, of_copy_event, of_done, of_event, of_place, of_region, of_range, of_section};
ghost use Rattle.caf_program.specs.Value.{count};
ghost use Rattle.caf_program.specs.View.{seen};
ghost use Rattle.caf_treestep.specs.Evaluated.{copy_events_from, event_if as event_if_of, event_wanted, held_by_copy_event, no_events, own_event_of, place_if as place_if_of, place_in as place_by, place_of, range_of, region_of, wanted_of, with_copy_event};

use caf_base::{CopyEvents, EventWanted, Place, SectionRange, SectionWanted, Trap};
use caf_program::{
    CopyEventR, EventR, ExprR, OwnEventR, PlaceR, RangeR, RegionR, SectionR, TeamR, View, eval_from,
};

/// A rank of a team.
pub(crate) fn place_in(team: TeamR, rank: i64) -> Place
    ensures { result ≡ place_by team rank }
{
    match team {
        TeamR::World => Place::World(rank),
        TeamR::Object(object) => Place::Of(object, rank),
    }
}

/// A place, with its rank evaluated.
pub(crate) fn place(place: &PlaceR<ExprR>, view: &View, at: &mut usize) -> Result<Place, Trap>
    requires { at.old + count place.now.rank ≤ length view.now.held.now }
    ensures value { result ≡ place_of place.now at.old (seen view.now) }
    ensures at { OnOk result (at.new ≡ at.old + count place.now.rank) }
{
    let rank = eval_from(&place.rank, view, at)?;
    Ok(place_in(place.team, rank))
}

/// A place, or this image where there is none.
fn place_if(
    place_or_none: &Option<PlaceR<ExprR>>,
    view: &View,
    at: &mut usize,
) -> Result<Place, Trap>
    requires { at.old + count_all (of_place place_or_none.now) ≤ length view.now.held.now }
    ensures value { result ≡ place_if_of place_or_none.now at.old (seen view.now) }
    ensures at { OnOk result (at.new ≡ at.old + count_all (of_place place_or_none.now)) }
{
    match place_or_none {
        None => Ok(Place::Own),
        Some(named) => place(named, view, at),
    }
}

/// The bounds of a section.
fn range(range: &RangeR, view: &View, at: &mut usize) -> Result<SectionRange, Trap>
    requires { at.old + count_all (of_range range.now) ≤ length view.now.held.now }
    ensures value { result ≡ range_of range.now at.old (seen view.now) }
    ensures at { OnOk result (at.new ≡ at.old + count_all (of_range range.now)) }
{
    match range {
        RangeR::All => Ok(SectionRange::All),
        RangeR::Cell(index) => {
            let index = eval_from(index, view, at)?;
            Ok(SectionRange::Cell(index))
        }
        RangeR::Between(first, last) => {
            let first = eval_from(first, view, at)?;
            let last = eval_from(last, view, at)?;
            Ok(SectionRange::Between(first, last))
        }
        RangeR::From(first) => {
            let first = eval_from(first, view, at)?;
            Ok(SectionRange::From(first))
        }
        RangeR::UpTo(last) => {
            let last = eval_from(last, view, at)?;
            Ok(SectionRange::UpTo(last))
        }
    }
}

/// Elements of a variable at a place.
#[tactic(auto, using(crate::proofs::Found::count_both))]
pub(crate) fn region(region: &RegionR, view: &View, at: &mut usize) -> Result<SectionWanted, Trap>
    requires { at.old + count_all (of_region region.now) ≤ length view.now.held.now }
    ensures value { result ≡ region_of region.now at.old (seen view.now) }
    ensures at { OnOk result (at.new ≡ at.old + count_all (of_region region.now)) }
{
    let elements = range(&region.range, view, at)?;
    let place = place_if(&region.place, view, at)?;
    Ok(SectionWanted::Region(region.object, elements, place))
}

/// A section that is copied.
pub(crate) fn section(
    section: &SectionR,
    view: &View,
    at: &mut usize,
) -> Result<SectionWanted, Trap>
    requires { at.old + count_all (of_section section.now) ≤ length view.now.held.now }
    ensures value { result ≡ wanted_of section.now at.old (seen view.now) }
    ensures at { OnOk result (at.new ≡ at.old + count_all (of_section section.now)) }
{
    match section {
        SectionR::Region(elements) => region(elements, view, at),
        SectionR::Pointed(copointer, elements) => {
            let elements = range(elements, view, at)?;
            Ok(SectionWanted::Pointed(*copointer, elements))
        }
    }
}

/// An event of this image.
fn own_event(event: &OwnEventR, view: &View, at: &mut usize) -> Result<EventWanted, Trap>
    requires { at.old + count event.now.index ≤ length view.now.held.now }
    ensures value { result ≡ own_event_of event.now at.old (seen view.now) }
    ensures at { OnOk result (at.new ≡ at.old + count event.now.index) }
{
    let index = eval_from(&event.index, view, at)?;
    Ok(EventWanted {
        object: event.object,
        index,
        place: Place::Own,
    })
}

/// An event at a place.
pub(crate) fn event(event: &EventR, view: &View, at: &mut usize) -> Result<EventWanted, Trap>
    requires { at.old + count_all (of_event event.now) ≤ length view.now.held.now }
    ensures value { result ≡ event_wanted event.now at.old (seen view.now) }
    ensures at { OnOk result (at.new ≡ at.old + count_all (of_event event.now)) }
{
    let index = eval_from(&event.own.index, view, at)?;
    let place = place_if(&event.place, view, at)?;
    Ok(EventWanted {
        object: event.own.object,
        index,
        place,
    })
}

/// An event that may be left out.
pub(crate) fn event_if(
    event_or_none: &Option<EventR>,
    view: &View,
    at: &mut usize,
) -> Result<Option<EventWanted>, Trap>
    requires { at.old + count_all (of_done event_or_none.now) ≤ length view.now.held.now }
    ensures value { result ≡ event_if_of event_or_none.now at.old (seen view.now) }
    ensures at { OnOk result (at.new ≡ at.old + count_all (of_done event_or_none.now)) }
{
    match event_or_none {
        None => Ok(None),
        Some(named) => {
            let wanted = event(named, view, at)?;
            Ok(Some(wanted))
        }
    }
}

/// One more event of a copy.
fn copy_event(
    named: &CopyEventR,
    view: &View,
    at: &mut usize,
    events: CopyEvents,
) -> Result<CopyEvents, Trap>
    requires { at.old + held_by_copy_event named.now ≤ length view.now.held.now }
    ensures value { result ≡ with_copy_event named.now at.old (seen view.now) events }
    ensures at { OnOk result (at.new ≡ at.old + held_by_copy_event named.now) }
{
    match named {
        CopyEventR::Pre(own) => {
            let pre = Some(own_event(own, view, at)?);
            Ok(CopyEvents { pre, ..events })
        }
        CopyEventR::Srce(source) => {
            let srce = Some(event(source, view, at)?);
            Ok(CopyEvents { srce, ..events })
        }
        CopyEventR::Deste(dest) => {
            let deste = Some(event(dest, view, at)?);
            Ok(CopyEvents { deste, ..events })
        }
    }
}

/// The events of a copy.
pub(crate) fn copy_events(
    named: &[CopyEventR],
    view: &View,
    at: &mut usize,
) -> Result<CopyEvents, Trap>
    requires { at.old + sum_by held_by_copy_event named.now ≤ length view.now.held.now }
    ensures { result ≡ copy_events_from named.now at.old (seen view.now) no_events }
{
    let mut events = CopyEvents {
        pre: None,
        srce: None,
        deste: None,
    };
    for event in named {
        events = copy_event(event, view, at, events)?;
    }
    Ok(events)
}
