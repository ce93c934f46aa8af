//! Whether a line is accepted: the causes for which one is refused, in their order.

ghost use Rattle.std.specs.Prelude.{◌≡◌, ◌+◌, ◌&&◌, true, List, length, None, Some, IfOk, IfErr};
ghost use Rattle.script_lines.specs.Ranges.{in_range};
ghost use Rattle.device_core.specs.Device.{DeviceState};
ghost use Rattle.campaign_world.specs.HeldWorld.{world_of};
ghost use Rattle.campaign_world.specs.Causes.{fits_flash, names_device};
ghost use Rattle.pair_run.specs.Pair.{side, other};
ghost use Rattle.pair_run.specs.Sides.{is_quiet};
ghost use Rattle.pair_run.specs.PairCauses.{common_cause, both_cause, crossing_cause, pair_form_cause, target_cause, pair_may_come, is_next, is_apart};
ghost use Rattle.pair_run.specs.HeldTargets.{told};
ghost use Rattle.pair_run.specs.HeldPair.{OfBoth, IsAccepted};

use super::Pair;
use crate::causes::{goes_by, is_apart, is_next, pair_may_come};
use crate::owners::Owner;
use crate::targets::{Way, Whose, whose_of};
use campaign_world::{World, fits_flash, is_device, names_device};
use report_lines::LineWhy;
use script_lines::{Campaign, Form, PairForm, in_range};

impl Pair {
    /// Returns the campaign of a line that was read, or the first cause for which the line is refused. A device that the form
    /// names then has its number in its campaign.
    pub(super) fn accept(&self, pair_form: &mut PairForm) -> Result<Whose, LineWhy>
        ensures target { IfOk result (λ whose.
            IsAccepted self.now pair_form.old (told whose pair_form.new.form)) }
        ensures why { IfErr result
            (λ why. OfBoth self.now (λ pair. pair_form_cause pair pair_form.old ≡ Some why)) }
    {
        if let Some(why) = self.common_cause(pair_form) {
            return Err(why);
        }
        let owners: &[Owner] = &self.owners;
        let whose = whose_of(owners, &self.a, &self.b, pair_form);
        match self.target_cause(whose, &pair_form.form) {
            Some(why) => Err(why),
            None => Ok(whose),
        }
    }

    /// The first cause that concerns both campaigns.
    fn common_cause(&self, pair_form: &PairForm) -> Option<LineWhy>
        ensures { OfBoth self.now (λ pair. result ≡ common_cause pair pair_form.now) }
    {
        if !self.comes(pair_form) {
            return Some(LineWhy::Order);
        }
        if !self.is_in_range(pair_form) {
            return Some(LineWhy::Range);
        }
        if !self.names_device(&pair_form.form) {
            return Some(LineWhy::Device);
        }
        if !self.fits_flash(&pair_form.form) {
            return Some(LineWhy::Limit);
        }
        None
    }

    /// Whether the line may come here.
    fn comes(&self, pair_form: &PairForm) -> bool
        ensures { result
            ≡ pair_may_come self.now.a.section self.now.b.section pair_form.now.campaign
            pair_form.now.form }
    {
        pair_may_come(
            self.a.section(),
            self.b.section(),
            pair_form.campaign,
            &pair_form.form,
        )
    }

    /// Whether its fields are in range, given the devices of both and what the first one plans.
    fn is_in_range(&self, pair_form: &PairForm) -> bool
        ensures { result ≡ (in_range pair_form.now.form
            && is_next (length self.now.owners) pair_form.now.form
            && is_apart self.now.a.server.plan pair_form.now.campaign pair_form.now.form) }
    {
        let form = &pair_form.form;
        let owners: &[Owner] = &self.owners;
        in_range(form)
            && is_next(owners.len(), form)
            && is_apart(self.a.plan(), pair_form.campaign, form)
    }

    /// Whether each device that it names is one of the two campaigns'.
    fn names_device(&self, form: &Form) -> bool
        ensures { result ≡ names_device (length self.now.owners) form.now }
    {
        let owners: &[Owner] = &self.owners;
        names_device(owners.len(), form)
    }

    /// Whether there is flash for its device after those of both that have one.
    fn fits_flash(&self, form: &Form) -> bool
        ensures { result ≡ fits_flash (length self.now.a.flash + length self.now.b.flash) form.now }
    {
        match form {
            Form::Device(_) => { fits_flash(self.a.flash_count() + self.b.flash_count(), form) }
            _ => true,
        }
    }

    /// The first cause in the line's own campaign.
    fn target_cause(&self, whose: Whose, form: &Form) -> Option<LineWhy>
        requires quiet { whose ≡ Whose.Both → is_quiet form.now ≡ true }
        ensures { OfBoth self.now (λ pair. result ≡ target_cause pair (told whose form.now)) }
    {
        match whose {
            Whose::Both => self.both_cause(form),
            Whose::One {
                campaign: Campaign::A,
            } => self.a.cause(form),
            Whose::One {
                campaign: Campaign::B,
            } => self.b.cause(form),
            Whose::Across {
                campaign,
                way,
                number,
                device,
                ..
            } => self.across_cause(campaign, way, number, device),
            Whose::Nobody => Some(LineWhy::Device),
        }
    }

    /// The first cause for which a payload of a campaign does not cross over.
    fn across_cause(
        &self,
        campaign: Campaign,
        way: Way,
        number: u64,
        device: u64,
    ) -> Option<LineWhy>
        ensures { OfBoth self.now (λ pair. result
            ≡ crossing_cause way (side pair campaign) (side pair (other campaign)) number device) }
    {
        match campaign {
            Campaign::A => crossing_cause(way, &self.a, &self.b, number, device),
            Campaign::B => crossing_cause(way, &self.b, &self.a, number, device),
        }
    }

    /// The first cause in either.
    fn both_cause(&self, form: &Form) -> Option<LineWhy>
        ensures { OfBoth self.now (λ pair. result ≡ both_cause pair form.now) }
    {
        match self.a.cause(form) {
            Some(why) => Some(why),
            None => self.b.cause(form),
        }
    }
}

/// The first cause for which a payload does not cross over.
fn crossing_cause(way: Way, from: &World, to: &World, number: u64, device: u64) -> Option<LineWhy>
    ensures { (a b : List DeviceState) → length b ≡ length to.now.devices
        → result ≡ crossing_cause way (world_of from.now a) (world_of to.now b) number device }
{
    if !is_device(to.count(), device) {
        return Some(LineWhy::Device);
    }
    let Some(sent) = from.sent(number) else {
        return Some(LineWhy::Unsent);
    };
    if sent.receiver.is_none() && goes_by(way, &sent) {
        None
    } else {
        Some(LineWhy::Unsent)
    }
}
