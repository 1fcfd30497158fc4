//! The steps of a rehearsal.
ghost use Rattle.std.specs.Prelude.{◌≡◌, ◌≤◌, ◌<◌, ◌+◌, ◌^◌, [], length, IfOk, OnOk};
ghost use Rattle.desk_machine.specs.Machine.{moment_limit};
ghost use Rattle.rehearsal.specs.Draws.{act_drawn, after_step, place_drawn};
ghost use Rattle.rehearsal.specs.Plays.{IsPlayable, counted, is_handover, is_stop};
ghost use Rattle.rehearsal.specs.Rehearsals.{IsRehearsal, Stood};

use crate::acts::{Act, act_for, draw, key_at};
use crate::cast::Cast;
use crate::counts::Counts;
use slash_defs::conflict_pairs;
use std::alloc::{AllocError, Global};

/// A number and how many clients there are; the clients, which of them has each key, the state of the generator, and
/// what is counted.
#[derive(Drop)]
pub(crate) struct Stage {
    number: u64,
    count: u64,
    cast: Cast,
    holders: Vec<usize>,
    state: u64,
    handovers: u64,
    stops: u64,
}

impl Stage {
    /// So many clients, to which twice as many keys are dealt in turn, each made active at epoch 0.
    fn new(alloc: Global, number: u64, clients: u64) -> Result<Stage, AllocError>
        requires some { 0 < clients }
        requires few { clients ≤ 16 }
        ensures stood { IfOk result (λ stage. Stood number clients 0 stage) }
        ensures number { IfOk result (λ stage. stage.number ≡ number) }
        ensures count { IfOk result (λ stage. stage.count ≡ clients) }
    {
        let mut cast = Cast::new(alloc, clients)?;
        let mut holders = Vec::new(alloc);
        'keys: for place in 0..2 * clients {
            let client = (place % clients) as usize;
            cast.activate(client, key_at(place as u8), 0)?;
            if holders.push(client).is_err() {
                return Err(AllocError);
            }
        }
        Ok(Stage {
            number,
            count: clients,
            cast,
            holders,
            state: number,
            handovers: 0,
            stops: 0,
        })
    }

    /// The act that is drawn for a step, with the place of its key.
    fn draw(&mut self, step: u64) -> (usize, Act)
        requires some { 0 < self.old.count }
        requires few { self.old.count ≤ 16 }
        requires step { step < 2 ^ 32 }
        ensures place { result.0 ≡ place_drawn self.old.count self.old.state }
        ensures act { result.1 ≡ act_drawn self.old.count step self.old.state }
        ensures playable { IsPlayable self.old.count result.1 }
        ensures state { self.new.state ≡ after_step self.old.state }
        ensures number { self.new.number ≡ self.old.number }
        ensures count { self.new.count ≡ self.old.count }
        ensures cast { self.new.cast ≡ self.old.cast }
        ensures holders { self.new.holders ≡ self.old.holders }
        ensures handovers { self.new.handovers ≡ self.old.handovers }
        ensures stops { self.new.stops ≡ self.old.stops }
    {
        let place = draw(&mut self.state) % (2 * self.count);
        let a = draw(&mut self.state) % 16;
        let v = draw(&mut self.state);
        (place as usize, act_for(self.count, step / 4, a, v))
    }

    /// Counts an act.
    fn count(&mut self, act: &Act)
        requires handovers { self.old.handovers < 2 ^ 32 }
        requires stops { self.old.stops < 2 ^ 32 }
        ensures handovers { self.new.handovers ≡ self.old.handovers + counted (is_handover act.now) }
        ensures stops { self.new.stops ≡ self.old.stops + counted (is_stop act.now) }
        ensures number { self.new.number ≡ self.old.number }
        ensures count { self.new.count ≡ self.old.count }
        ensures cast { self.new.cast ≡ self.old.cast }
        ensures holders { self.new.holders ≡ self.old.holders }
        ensures state { self.new.state ≡ self.old.state }
    {
        match act {
            Act::HandOver { to: _ } => self.handovers += 1,
            Act::Stop
            | Act::StopWithin {
                message: _,
                disk_call: _,
                crash: _,
            } => self.stops += 1,
            Act::Propose(_) | Act::Prune => {}
        }
    }

    /// Plays a step: its act is drawn and done.
    fn step(&mut self, step: u64) -> Result<(), AllocError>
        requires some { 0 < self.old.count }
        requires few { self.old.count ≤ 16 }
        requires step { step < 20000 }
        requires stood { Stood self.old.number self.old.count step self.old }
        ensures stood { OnOk result (Stood self.new.number self.new.count (step + 1) self.new) }
        ensures number { self.new.number ≡ self.old.number }
        ensures count { self.new.count ≡ self.old.count }
    {
        let (place, act) = self.draw(step);
        self.count(&act);
        let client = self.holders[place];
        let holder = self.cast.play(client, key_at(place as u8), act, step / 4)?;
        self.holders[place] = holder;
        Ok(())
    }

    /// What is counted after that many steps.
    fn counts(&self, steps: u64) -> Counts
        requires steps { steps ≤ 20000 }
        requires stood { Stood self.now.number self.now.count steps self.now }
        ensures { IsRehearsal self.now.number self.now.count steps result }
    {
        Counts {
            steps,
            granted: self.cast.sent.len() as u64,
            refused: self.cast.refused,
            handovers: self.handovers,
            stops: self.stops,
            conflicts: conflict_pairs(&self.cast.sent),
        }
    }
}

/// Rehearses: that many clients with two keys each vote, propose blocks, hand keys over, stop at any moment and prune, in
/// that many steps, all drawn from one number; and what was sent is looked through for slashable pairs. Desks stand over
/// disks in memory, without the watch. There are none: `conflicts` is 0, since what happens is a lawful run of all
/// clients (`world_law::handover_law`).
///
/// # Errors
///
/// `AllocError` where memory was wanted.
pub fn rehearse(alloc: Global, number: u64, clients: u64, steps: u64) -> Result<Counts, AllocError>
    requires some { 0 < clients }
    requires few { clients ≤ 16 }
    requires steps { steps ≤ 20000 }
    ensures { IfOk result (λ counts. IsRehearsal number clients steps counts) }
{
    let mut stage = Stage::new(alloc, number, clients)?;
    'steps: for step in 0..steps {
        stage.step(step)?;
    }
    Ok(stage.counts(steps))
}
