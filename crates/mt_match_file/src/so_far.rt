ghost use Rattle.std.specs.Prelude.{◌≡◌, ◌<◌, length, map, None, IfOk, OnOk};
ghost use Rattle.std.specs.Option.{unwrap_or};
ghost use Rattle.mt_terms.specs.Market.{applicants};
ghost use Rattle.mt_match_file.specs.Submitted.{after, match_of, first_unplaced, nothing_read};
ghost use Rattle.mt_match_file.specs.Reading.{FitsInto, Gives, HasRoomFor};
ghost use Rattle.mt_match_file.specs.View.{read_so_far};

use crate::aside::AsideCouples;
use crate::codes::NOT_PLACED;
use crate::fault::{MatchError, RecordFault};
use crate::line::Line;
use crate::submitted_match::{Counted, SubmittedMatch};
use mt_market::Roster;
use mt_terms::{AppNo, Match, Places, ProgNo};
use std::alloc::{AllocError, Global};

/// What some records said: the counts, the couples set aside, and for each applicant, by number, its place if one of
/// them said it.
#[derive(Drop)]
pub(crate) struct SoFar {
    pub(crate) places: Vec<Option<Option<ProgNo>>>,
    counts: Vec<Counted>,
    pub(crate) aside: AsideCouples,
}

impl SoFar {
    /// No place, no count and no couple set aside, for a market.
    pub(crate) fn new(alloc: Global, roster: &Roster) -> Result<Self, AllocError>
        ensures nothing { IfOk result (λ s. read_so_far s
            ≡ nothing_read (applicants roster.now.market)) }
        ensures room { IfOk result (HasRoomFor roster.now.market) }
    {
        Ok(SoFar {
            places: vec![in alloc; None; roster.applicants() as usize]?,
            counts: Vec::new(alloc),
            aside: AsideCouples::none(alloc, roster.couples() as usize)?,
        })
    }

    /// Adds what a record with this number says.
    pub(crate) fn add(&mut self, row: u64, line: Line) -> Result<(), AllocError>
        requires { FitsInto (length self.old.places.items)
            (length self.old.aside.marks.items) line }
        ensures after { OnOk result (read_so_far self.new ≡ after row (read_so_far self.old) line) }
        ensures applicants { OnOk result (length self.new.places.items
            ≡ length self.old.places.items) }
        ensures couples { OnOk result (length self.new.aside.marks.items
            ≡ length self.old.aside.marks.items) }
    {
        match line {
            Line::Head => {}
            Line::Place(applicant, place) => self.places[applicant.index()] = Some(place),
            Line::Counts(count) => self.counts.push(Counted { row, count })?,
            Line::Aside(couple) => self.aside.add(couple)?,
        }
        Ok(())
    }

    /// The first applicant that no record places.
    fn first_unplaced(&self) -> Option<usize>
        ensures { result ≡ first_unplaced (read_so_far self.now) }
    {
        self.places.iter().position(|place| place.is_none())
    }

    /// The places of all applicants. An applicant whose place no record said has none.
    fn all_places(&self, alloc: Global) -> Result<Vec<Option<ProgNo>>, AllocError>
        ensures { IfOk result (λ v. v.items
            ≡ map (λ place. unwrap_or place None) self.now.places.items) }
    {
        let mut places = Vec::with_capacity(alloc, self.places.len())?;
        for place in &self.places {
            places.push((*place).flatten())?;
        }
        Ok(places)
    }

    /// The match, if each applicant has its place. The error is the first applicant that has none, or want of memory.
    pub(crate) fn into_match(
        self,
        alloc: Global,
        roster: &Roster,
    ) -> Result<SubmittedMatch, MatchError>
        requires { length self.places.items ≡ applicants roster.now.market }
        ensures { Gives result (match_of roster.now.names (read_so_far self)
            (first_unplaced (read_so_far self))) }
    {
        if let Some(missing) = self.first_unplaced() {
            roster.is_of_a_file();
            let id = roster.applicant_id(AppNo(missing as u32));
            return Err(RecordFault::of(NOT_PLACED, id).at(0));
        }
        let places = Places::new(self.all_places(alloc)?);
        Ok(SubmittedMatch::new(Match { places }, self.counts, self.aside.into_couples()))
    }
}
