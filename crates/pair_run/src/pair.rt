//! Two campaigns as their script describes them, line by line.

ghost use Rattle.std.specs.Prelude.{◌≡◌, ◌<◌, ◌+◌, true, None, Some, Err, IfOk, IfErr, OnErr, OnOk, is_some};
ghost use Rattle.image_slots.specs.Image.{is_image};
ghost use Rattle.script_lines.specs.Limits.{max_lines};
ghost use Rattle.pair_run.specs.Pair.{PairState, first_pair};
ghost use Rattle.pair_run.specs.PairMaking.{after_target};
ghost use Rattle.pair_run.specs.HeldTargets.{told};
ghost use Rattle.campaign_world.specs.Causes.{has_begun, has_ended};

mod accepting;

use crate::owners::Owner;
use crate::report::report;
use crate::steps::{cross, take_both, take_own};
use crate::targets::Whose;
use campaign_world::{Section, World};
use report_lines::{LineError, LineWhy, MAX_LINE, MAX_LINES, refused_behind};
use script_lines::{Campaign, Form, pair_form};
use std::alloc::{AllocError, Global};
use std::marker::Model;

/// Two campaigns so far.
#[derive(Drop)]
pub struct Pair {
    a: World,
    b: World,
    owners: Vec<Owner>,
    kept: Option<LineError>,
}

impl Model for Pair {
    ghost use Rattle.pair_run.specs.HeldPair.{HeldPair};

    ghost Value = { HeldPair };

    ghost view = { λ p. record { a = p.a; b = p.b; owners = p.owners.items; kept = p.kept } };
}

impl Pair {
    ghost use Rattle.report_lines.specs.declared.faults.LineError.{LineError};
    ghost use Rattle.report_lines.specs.Lines.{StaysRefused};
    ghost use Rattle.report_lines.specs.Texts.{seen_text};
    ghost use Rattle.pair_run.specs.HeldPair.{PairStands, PairBecomes, PairKeepsEnds, IsPairAnswer, IsPairReport, IsPairEnded, IsFineTarget};

    /// Makes two campaigns in which nothing happened yet, around their image files.
    pub fn new(alloc: Global, image_a: &[u8], image_b: &[u8]) -> Result<Self, AllocError>
        requires a { is_image image_a.now ≡ true }
        requires b { is_image image_b.now ≡ true }
        ensures stands { IfOk result (λ p. PairStands p (first_pair image_a.now image_b.now)) }
        ensures fresh { IfOk result (λ p. p.kept ≡ None) }
    {
        match World::new(alloc, image_a) {
            Ok(a) => match World::new(alloc, image_b) {
                Ok(b) => Ok(Pair {
                    a,
                    b,
                    owners: Vec::new(alloc),
                    kept: None,
                }),
                Err(error) => {
                    drop(a);
                    Err(error)
                }
            },
            Err(error) => Err(error),
        }
    }

    /// Takes the next line of the script, without its line feed. After a refused line each later line gets the same fault, and so
    /// it is after memory was missing. All memory that a line needs is taken before a device or a server is called, so that all
    /// are unchanged where it is missing.
    pub fn line(&mut self, line: &[u8]) -> Result<(), LineError>
        ensures step { (pair : PairState) → PairStands self.old pair → self.old.kept ≡ None
            → IsPairAnswer pair line.now self.new result }
        ensures kept { IfErr result (λ e. self.new.kept ≡ Some e) }
        ensures same { (e : LineError) → self.old.kept ≡ Some e
            → (result ≡ Err e) × (self.new ≡ self.old) }
        ensures ends { OnErr result (PairKeepsEnds self.old self.new) }
    {
        if let Some(kept) = self.kept {
            return Err(kept);
        }
        if self.a.lines() >= MAX_LINES {
            return self.refused(LineWhy::Limit);
        }
        if self.b.lines() >= MAX_LINES {
            return self.refused(LineWhy::Limit);
        }
        if line.len() > MAX_LINE {
            return self.refused(LineWhy::Limit);
        }
        let mut read = pair_form(line);
        let Some(pair_form) = &mut read else {
            return self.refused(LineWhy::Syntax);
        };
        match self.accept(pair_form) {
            Err(why) => self.refused(why),
            Ok(whose) => self.take(whose, &pair_form.form),
        }
    }

    /// Makes the report of both campaigns, once `end` has come.
    pub fn report(&self, alloc: Global) -> Result<Vec<u8>, LineError>
        ensures report { (pair : PairState) → PairStands self.now pair → self.now.kept ≡ None
            → IsPairReport pair (seen_text result) }
        ensures same { StaysRefused self.now.kept result }
    {
        self.ended()?;
        Ok(report(alloc, &self.a, &self.b, &self.owners)?)
    }

    /// Says that `end` has come, or else returns the fault of the line that is missing.
    #[tactic(auto, using(crate::proofs::Sides::ended_begun))]
    pub fn ended(&self) -> Result<(), LineError>
        ensures begun_a { OnOk result (has_begun self.now.a.section ≡ true) }
        ensures begun_b { OnOk result (has_begun self.now.b.section ≡ true) }
        ensures ended { (pair : PairState) → PairStands self.now pair → self.now.kept ≡ None
            → IsPairEnded pair result }
        ensures same { StaysRefused self.now.kept result }
    {
        if let Some(kept) = self.kept {
            return Err(kept);
        }
        if has_ended(self.a.section()) && has_ended(self.b.section()) {
            Ok(())
        } else {
            Err(self.fault(LineWhy::Syntax))
        }
    }

    /// Says whether a line was refused, or memory was missing: then no line does more.
    pub fn is_over(&self) -> bool
        ensures { result ≡ is_some self.now.kept }
    {
        self.kept.is_some()
    }

    /// Refuses the next line, and so each later one.
    fn refused(&mut self, why: LineWhy) -> Result<(), LineError>
        ensures fault { result ≡ Err
            (LineError.Line (record { line = self.old.a.lines + 1; why = why })) }
        ensures kept { self.new ≡ record self.old {
          kept =
              Some (LineError.Line (record { line = self.old.a.lines + 1; why = why }));
        } }
    {
        let fault = self.fault(why);
        self.kept = Some(fault);
        Err(fault)
    }

    /// The fault of the line that comes next.
    fn fault(&self, why: LineWhy) -> LineError
        ensures { result ≡ LineError.Line (record { line = self.now.a.lines + 1; why = why }) }
    {
        refused_behind(self.a.lines(), why)
    }

    /// Carries out a line that is not refused.
    #[inline(always)]
    fn take(&mut self, whose: Whose, form: &Form) -> Result<(), LineError>
        requires fine { IsFineTarget self.old (told whose form.now) }
        requires room_a { self.old.a.lines < max_lines }
        requires room_b { self.old.b.lines < max_lines }
        ensures taken { OnOk result
            (PairBecomes self.old self.new (λ pair. after_target pair (told whose form.now))) }
        ensures memory { IfErr result (λ e. e ≡ LineError.Memory) }
        ensures kept { OnOk result (self.new.kept ≡ self.old.kept) }
        ensures keeps { IfErr result (λ e. self.new.kept ≡ Some e) }
        ensures ends { OnErr result (PairKeepsEnds self.old self.new) }
    {
        match self.carry_out(whose, form) {
            Ok(()) => Ok(()),
            Err(_) => {
                self.kept = Some(LineError::Memory);
                Err(LineError::Memory)
            }
        }
    }

    /// Carries out a line at the two worlds.
    #[inline(always)]
    #[tactic(auto, unfolding(crate::specs::PairMaking::after_target))]
    fn carry_out(&mut self, whose: Whose, form: &Form) -> Result<(), LineError>
        requires fine { IsFineTarget self.old (told whose form.now) }
        requires room_a { self.old.a.lines < max_lines }
        requires room_b { self.old.b.lines < max_lines }
        ensures taken { OnOk result
            (PairBecomes self.old self.new (λ pair. after_target pair (told whose form.now))) }
        ensures kept { self.new.kept ≡ self.old.kept }
        ensures ends { OnErr result (PairKeepsEnds self.old self.new) }
    {
        let owners = &mut self.owners;
        match whose {
            Whose::Both => take_both(&mut self.a, &mut self.b, form),
            Whose::One {
                campaign: Campaign::A,
            } => take_own(&mut self.a, &mut self.b, owners, Campaign::A, form),
            Whose::One {
                campaign: Campaign::B,
            } => take_own(&mut self.b, &mut self.a, owners, Campaign::B, form),
            Whose::Across {
                campaign: Campaign::A,
                number,
                device,
                word,
                ..
            } => cross(&mut self.a, &mut self.b, number, device, word),
            Whose::Across {
                campaign: Campaign::B,
                number,
                device,
                word,
                ..
            } => cross(&mut self.b, &mut self.a, number, device, word),
            Whose::Nobody => Err(LineError::Memory),
        }
    }
}

/// Whether nothing more comes of a campaign.
fn has_ended(section: Section) -> bool
    ensures { result ≡ has_ended section }
{
    matches!(section, Section::Ended)
}
