//! Drives of which a caller says no more than what is driven.
ghost use Rattle.std.specs.Prelude.{◌≡◌, ◌<◌, true, IfOk};
ghost use Rattle.std.specs.List.{range_with_len};
ghost use Rattle.port_bank.specs.Port.{IsSlots};
ghost use Rattle.rank_node.specs.Movers.{manner_of};
ghost use Rattle.rank_group.specs.Ranks.{IsOrder};
ghost use Rattle.rank_group.specs.DrivePromises.{MayRun, HasFinished};
ghost use Rattle.rank_group.specs.Defaults.{count_of, default_settings, HasDriven};
ghost use Rattle.bale_items.specs.Ledgers.{IsBlankOf};
ghost use Rattle.rank_node.specs.Fits.{FitsGrid};

use crate::drive::{Finished, drive_serial};
use crate::threads::drive_threads;
use bale_items::{NoMemory, Steps};
use rank_crews::OpenGate;
use rank_node::Via;
use round_program::{Program, Progs};
use route_tensor::Grid;
use std::alloc::Global;
use std::marker::Brand;
use std::sync::Wait;
use std::sync::ledger::{Blank, Ledger};
use std::thread::Threads;

/// How many parcels a link has under way at most.
#[derive(Clone, Copy, PartialEq, Eq, Debug)]
pub enum Slots {
    One,
    Two,
    Four,
    Eight,
}

impl Slots {
    /// Their number.
    #[tactic(auto, unfolding(port_bank::specs::Port::IsSlots))]
    pub fn count(self) -> u32
        ensures number { result ≡ count_of self }
        ensures slots { IsSlots result }
    {
        match self {
            Slots::One => 1,
            Slots::Two => 2,
            Slots::Four => 4,
            Slots::Eight => 8,
        }
    }
}

/// How items travel.
#[derive(Clone, Copy, PartialEq, Eq, Debug)]
pub struct Settings {
    pub via: Via,
    pub slots: Slots,
    /// whether a conveyor sends a parcel that isn't full in every turn
    pub steady: bool,
}

impl Settings {
    /// By conveyors that aren't steady, over links of two slots.
    pub fn new() -> Settings
        ensures { result ≡ default_settings }
    {
        Settings {
            via: Via::Convey,
            slots: Slots::Two,
            steady: false,
        }
    }
}

/// `drive_serial` in the order of the ranks, with no count of turns.
///
/// # Errors
/// As those of `drive_serial`.
pub fn drive_in_turn<const CAP: usize, const HOPS: usize, Q: Program>(
    alloc: Global,
    grid: &Grid,
    settings: Settings,
    progs: Progs<Q>,
) -> Result<Finished<Q>, NoMemory>
    requires fits { FitsGrid CAP HOPS grid.now }
    requires run { MayRun Q.rules grid.now settings.via progs }
    ensures { IfOk result (HasDriven Q.rules CAP grid.now settings progs) }
{
    in_turn(Driving::<CAP, HOPS, Q> {
        alloc,
        grid,
        settings,
        progs,
    })
}

/// A run that is to be driven on one thread, whatever its capacity and hops.
trait InTurn<Q: Program> {
    ghost use Rattle.rank_group.specs.declared.drive.Finished.{Finished};

    ghost may: { Self → Type 0 };

    ghost ended: { Self → Finished Q → Type 0 };

    /// Drives it to its end. Each turn raises `steps` by one.
    fn run<L: Ledger>(self, steps: &mut Steps<L>) -> Result<Finished<Q>, NoMemory>
        requires { may self }
        ensures { IfOk result (ended self) };
}

/// Drives a run, and counts its turns from 0 on.
fn in_turn<Q: Program, D: InTurn<Q>>(driving: D) -> Result<Finished<Q>, NoMemory>
    requires { D.may driving }
    ensures { IfOk result (D.ended driving) }
{
    in_turn_counted::<Q, D, Brand>(driving, Blank::new(1))
}

/// Drives a run, and counts its turns by a ledger that nothing was written in.
fn in_turn_counted<Q: Program, D: InTurn<Q>, L: Ledger>(
    driving: D,
    blank: Blank,
) -> Result<Finished<Q>, NoMemory>
    requires may { D.may driving }
    requires blank { IsBlankOf L.name L.parts blank.name blank.parts }
    ensures { IfOk result (D.ended driving) }
{
    let mut steps = Steps::<L>::new(blank);
    driving.run(&mut steps)
}

/// What `drive_in_turn` is given.
struct Driving<'a, const CAP: usize, const HOPS: usize, Q: Program> {
    alloc: Global,
    grid: &'a Grid,
    settings: Settings,
    progs: Progs<Q>,
}

impl<'a, const CAP: usize, const HOPS: usize, Q: Program> InTurn<Q> for Driving<'a, CAP, HOPS, Q> {
    ghost use Rattle.rank_group.specs.Defaults.{MayDrive, HasDriven};

    ghost may = { λ d. MayDrive Q.rules CAP HOPS d.grid.now d.settings d.progs };

    ghost ended = { λ d. HasDriven Q.rules CAP d.grid.now d.settings d.progs };

    fn run<L: Ledger>(self, steps: &mut Steps<L>) -> Result<Finished<Q>, NoMemory> {
        let Driving {
            alloc,
            grid,
            settings,
            progs,
        } = self;
        let slots = settings.slots.count();
        let order = in_order(alloc, grid.ranks())?;
        drive_serial::<CAP, HOPS, Q, L>(
            alloc,
            grid,
            settings.via,
            slots,
            settings.steady,
            &order,
            progs,
            steps,
        )
    }
}

/// `drive_threads` with a gate that holds nobody.
///
/// # Errors
/// As those of `drive_threads`.
pub fn drive_on_threads<
    const CAP: usize,
    const HOPS: usize,
    R: Threads + Wait + Sync,
    Q: Program + Send,
>(
    rt: &R,
    alloc: Global,
    grid: &Grid,
    settings: Settings,
    progs: Progs<Q>,
) -> Result<Finished<Q>, NoMemory>
    requires fits { FitsGrid CAP HOPS grid.now }
    requires run { MayRun Q.rules grid.now settings.via progs }
    ensures { IfOk result (HasFinished Q.rules progs
        (record { dims = grid.now; cap = CAP; slots = count_of settings.slots; by_slots = true })
        (manner_of settings.via settings.steady)) }
{
    let slots = settings.slots.count();
    drive_threads::<CAP, HOPS, R, Q, OpenGate>(
        rt,
        alloc,
        grid,
        settings.via,
        slots,
        settings.steady,
        progs,
        &OpenGate,
    )
}

/// The ranks below a number in their own order, as an order for `drive_serial`.
///
/// # Errors
/// `NoMemory` if there was none.
pub fn in_order(alloc: Global, ranks: u32) -> Result<Vec<u32>, NoMemory>
    ensures numbers { IfOk result (λ v. v.items ≡ range_with_len 0 ranks) }
    ensures order { IfOk result (λ v. IsOrder ranks v.items) }
{
    let mut order = Vec::new(alloc);
    for rank in 0..ranks {
        order.push(rank)?;
    }
    Ok(order)
}
