//! One program of many, and the way in and out.

ghost use Rattle.std.specs.Prelude.{◌≡◌, ℕ, List};
ghost use Rattle.round_program.specs.Injections.{Injects};
ghost use Rattle.app_cases.specs.Any.{AnyState, any_rules};

use crate::any_program::AnyProgram;
use crate::tally_case::TallyCase;
use app_histo_ig::{Histo, Ig, IgSums};
use app_permute::{Permute, Transpose};
use app_sssp::Sssp;
use app_topo::Topo;
use delta_step::Delta;
use either::{Left, Right};
use round_program::Program;

/// A program that is one of the applications.
pub trait Case: Program {
    /// the program as any of the applications
    ghost case_of: { Self → AnyState };
    /// a run's shape, with the application written before it
    ghost wrap: { List ℕ → List ℕ };

    /// The program as any of them.
    fn put(self) -> AnyProgram
        ensures { result ≡ case_of self };

    /// The program out of any of them, if it is this one.
    fn taken(any: AnyProgram) -> Self
        requires { (s : Self) × (any ≡ case_of s) }
        ensures { any ≡ case_of result };

    ghost is_case: { Injects Self.rules any_rules case_of wrap };
}

impl Case for Histo {
    ghost use Rattle.app_cases.specs.Any.{histo_way};

    ghost case_of = { histo_way.case };

    ghost wrap = { histo_way.shape };

    ghost is_case = { histo_way.is_case };

    fn put(self) -> AnyProgram {
        AnyProgram {
            tree: Left(Left(self)),
        }
    }

    fn taken(any: AnyProgram) -> Histo {
        match any.tree {
            Left(Left(histo)) => histo,
            _ => unreachable!(),
        }
    }
}

impl Case for Ig {
    ghost use Rattle.app_cases.specs.Any.{ig_way};

    ghost case_of = { ig_way.case };

    ghost wrap = { ig_way.shape };

    ghost is_case = { ig_way.is_case };

    fn put(self) -> AnyProgram {
        AnyProgram {
            tree: Left(Right(Left(self))),
        }
    }

    fn taken(any: AnyProgram) -> Ig {
        match any.tree {
            Left(Right(Left(ig))) => ig,
            _ => unreachable!(),
        }
    }
}

impl Case for IgSums {
    ghost use Rattle.app_cases.specs.Any.{sums_way};

    ghost case_of = { sums_way.case };

    ghost wrap = { sums_way.shape };

    ghost is_case = { sums_way.is_case };

    fn put(self) -> AnyProgram {
        AnyProgram {
            tree: Left(Right(Right(self))),
        }
    }

    fn taken(any: AnyProgram) -> IgSums {
        match any.tree {
            Left(Right(Right(sums))) => sums,
            _ => unreachable!(),
        }
    }
}

impl Case for Permute {
    ghost use Rattle.app_cases.specs.Any.{permute_way};

    ghost case_of = { permute_way.case };

    ghost wrap = { permute_way.shape };

    ghost is_case = { permute_way.is_case };

    fn put(self) -> AnyProgram {
        AnyProgram {
            tree: Right(Left(Left(self))),
        }
    }

    fn taken(any: AnyProgram) -> Permute {
        match any.tree {
            Right(Left(Left(permute))) => permute,
            _ => unreachable!(),
        }
    }
}

impl Case for Transpose {
    ghost use Rattle.app_cases.specs.Any.{transpose_way};

    ghost case_of = { transpose_way.case };

    ghost wrap = { transpose_way.shape };

    ghost is_case = { transpose_way.is_case };

    fn put(self) -> AnyProgram {
        AnyProgram {
            tree: Right(Left(Right(self))),
        }
    }

    fn taken(any: AnyProgram) -> Transpose {
        match any.tree {
            Right(Left(Right(transpose))) => transpose,
            _ => unreachable!(),
        }
    }
}

impl Case for Topo {
    ghost use Rattle.app_cases.specs.Any.{topo_way};

    ghost case_of = { topo_way.case };

    ghost wrap = { topo_way.shape };

    ghost is_case = { topo_way.is_case };

    fn put(self) -> AnyProgram {
        AnyProgram {
            tree: Right(Right(Left(Left(self)))),
        }
    }

    fn taken(any: AnyProgram) -> Topo {
        match any.tree {
            Right(Right(Left(Left(topo)))) => topo,
            _ => unreachable!(),
        }
    }
}

impl Case for TallyCase {
    ghost use Rattle.app_cases.specs.Any.{tally_way};

    ghost case_of = { tally_way.case };

    ghost wrap = { tally_way.shape };

    ghost is_case = { tally_way.is_case };

    fn put(self) -> AnyProgram {
        AnyProgram {
            tree: Right(Right(Left(Right(self)))),
        }
    }

    fn taken(any: AnyProgram) -> TallyCase {
        match any.tree {
            Right(Right(Left(Right(tally)))) => tally,
            _ => unreachable!(),
        }
    }
}

impl Case for Sssp {
    ghost use Rattle.app_cases.specs.Any.{sssp_way};

    ghost case_of = { sssp_way.case };

    ghost wrap = { sssp_way.shape };

    ghost is_case = { sssp_way.is_case };

    fn put(self) -> AnyProgram {
        AnyProgram {
            tree: Right(Right(Right(Left(self)))),
        }
    }

    fn taken(any: AnyProgram) -> Sssp {
        match any.tree {
            Right(Right(Right(Left(sssp)))) => sssp,
            _ => unreachable!(),
        }
    }
}

impl Case for Delta {
    ghost use Rattle.app_cases.specs.Any.{delta_way};

    ghost case_of = { delta_way.case };

    ghost wrap = { delta_way.shape };

    ghost is_case = { delta_way.is_case };

    fn put(self) -> AnyProgram {
        AnyProgram {
            tree: Right(Right(Right(Right(self)))),
        }
    }

    fn taken(any: AnyProgram) -> Delta {
        match any.tree {
            Right(Right(Right(Right(delta)))) => delta,
            _ => unreachable!(),
        }
    }
}
