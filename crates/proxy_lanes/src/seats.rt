//! Servants that take seats at a shared desk, and leave them.
ghost use Rattle.std.specs.Prelude.{◌≡◌, ◌+◌, ◌≤◌, [], All, map, vec_capacity, vec_len};
ghost use Rattle.desk_lock.specs.Sharing.{IsSame, given_of, passes_of};
ghost use Rattle.desk_seat.specs.Seats.{IsDeskPass};
ghost use Rattle.proxy_api.specs.Attending.{terms_of};
ghost use Rattle.proxy_lanes.specs.Seating.{AreNew};

use crate::run::Proxy;
use desk_lock::{Owner, Pass, Shared};
use desk_seat::{LentDesk, Seated};
use edge_clock::Clock;
use edge_kit::Disk;
use proxy_api::ProxyServant;
use std::alloc::Global;
use std::sync::Wait;

/// What a servant is given: a pass to the desk, and a signer.
#[derive(Drop)]
pub(crate) struct Place<P, S> {
    pub(crate) pass: P,
    pub(crate) signer: S,
}

/// Such a place at a desk over disks.
pub(crate) type PlaceOf<D, S> = Place<Pass<LentDesk<D>>, S>;

/// A servant in its seat.
pub(crate) type SeatedServant<'a, D, X, S, C> = ProxyServant<'a, Seated<'a, D, X>, S, C>;

/// Gives a pass to each signer, in their order.
pub(crate) fn give_passes<D: Disk, S: Drop>(
    owner: &mut Owner<LentDesk<D>>,
    signers: Vec<S>,
    places: &mut Vec<PlaceOf<D, S>>,
)
    requires count { given_of owner.old + vec_len signers ≡ passes_of owner.old }
    requires none { places.old.items ≡ [] }
    requires room { vec_len signers ≤ vec_capacity places.old }
    ensures same { IsSame owner.old owner.new }
    ensures given { given_of owner.new ≡ passes_of owner.new }
    ensures signers { map (λ place. place.signer) places.new.items ≡ signers.items }
    ensures new { AreNew D.moment D.leaves D.faults owner.new.shared (given_of owner.old) (map (λ place. place.pass) places.new.items) }
{
    'signers: for signer in signers {
        let Some(pass) = owner.pass() else {
            unreachable!()
        };
        places.push_reserved(Place { pass, signer });
    }
}

/// Lets each servant take its seat.
pub(crate) fn take_seats<'a, D: Disk, X: Wait, S: Drop, C: Clock>(
    rt: &'a X,
    alloc: Global,
    wanted: Proxy<'a>,
    clock: &'a C,
    shared: &'a Shared<LentDesk<D>>,
    places: Vec<PlaceOf<D, S>>,
    servants: &mut Vec<SeatedServant<'a, D, X, S, C>>,
)
    requires passes { All (λ place. IsDeskPass D.moment D.leaves D.faults shared.now place.pass) places.items }
    requires none { servants.old.items ≡ [] }
    requires room { vec_len places ≤ vec_capacity servants.old }
    ensures passes { map (λ servant. servant.desk.pass) servants.new.items ≡ map (λ place. place.pass) places.items }
    ensures signers { map (λ servant. servant.signer) servants.new.items ≡ map (λ place. place.signer) places.items }
    ensures shared { All (λ servant. servant.desk.shared.now ≡ shared.now) servants.new.items }
    ensures ready { All (λ servant. IsDeskPass D.moment D.leaves D.faults servant.desk.shared.now servant.desk.pass) servants.new.items }
    ensures terms { All (λ servant. terms_of (C.start servant.clock.now) servant.token.now servant.genesis servant.genesis_time ≡ terms_of (C.start clock.now) wanted.entry.token.now wanted.entry.genesis wanted.entry.genesis_time) servants.new.items }
{
    'places: for place in places {
        let Place { pass, signer } = place;
        servants.push_reserved(ProxyServant {
            alloc,
            token: wanted.token,
            genesis: wanted.genesis,
            genesis_time: wanted.genesis_time,
            clock,
            desk: Seated::new(rt, shared, pass),
            signer,
        });
    }
}

/// Lets each servant leave its seat, and hands back its pass and its signer, each in the order of the servants.
pub(crate) fn leave_seats<'a, D: Disk, X: Wait, S: Drop, C: Clock>(
    servants: Vec<SeatedServant<'a, D, X, S, C>>,
    passes: &mut Vec<Pass<LentDesk<D>>>,
    signers: &mut Vec<S>,
)
    requires none { (passes.old.items ≡ []) × (signers.old.items ≡ []) }
    requires room { (vec_len servants ≤ vec_capacity passes.old) × (vec_len servants ≤ vec_capacity signers.old) }
    ensures passes { passes.new.items ≡ map (λ servant. servant.desk.pass) servants.entry.items }
    ensures signers { signers.new.items ≡ map (λ servant. servant.signer) servants.entry.items }
{
    'servants: for servant in servants {
        let ProxyServant {
            alloc: _,
            token: _,
            genesis: _,
            genesis_time: _,
            clock: _,
            desk,
            signer,
        } = servant;
        passes.push_reserved(desk.into_pass());
        signers.push_reserved(signer);
    }
}
