//! Fires nogoods: the bound that is left of each is broken by all that remains.

ghost use Rattle.std.specs.Prelude.{◌≡◌, ◌<◌, List, [], ◌∷◌, ◌++◌, length, true, false};
ghost use Rattle.std.specs.List.{All};
ghost use Rattle.tl_cert.specs.declared.log.Bound.{Bound as B};
ghost use Rattle.tl_cert.specs.Lines.{fired, nogood_at};
ghost use Rattle.tl_cert.specs.Nogoods.{NamesAreThere, nogood_bounds};
ghost use Rattle.tl_cert.specs.Traces.{IsTraceOf};
ghost use Rattle.tl_check.specs.inner.Firing.{LeadsTo, NeverFires};
ghost use Rattle.tl_check.specs.Matrices.{Describes, IsMatrixOf, KeepsMarks};

use crate::bounds::keep_broken;
use crate::left::{Left, left_of};
use tl_cert::{CutAt, LogLine, Nogood};
use tl_diff::Matrix;
use tl_problem::Problem;

/// Fires one nogood: where all its bounds but one are implied, leaves what breaks that one. `false`
/// where more bounds are left.
fn fire(problem: &Problem, trace: &[CutAt], nogood: &Nogood, matrix: &mut Matrix) -> bool
    requires trace { IsTraceOf problem.now trace.now }
    requires names { NamesAreThere problem.now trace.now nogood.now }
    requires keeps { IsMatrixOf problem.now matrix.old.bounds }
    ensures keeps { IsMatrixOf problem.now matrix.new.bounds }
    ensures marks { KeepsMarks matrix.old matrix.new }
    ensures yes { result ≡ true → (given : List B) (nogoods : List (List B)) → LeadsTo problem.now given nogoods matrix.old.bounds →
        LeadsTo problem.now given (nogoods ++ nogood_bounds problem.now trace.now nogood.now ∷ []) matrix.new.bounds }
    ensures no { result ≡ false → (given : List B) (nogoods more : List (List B)) → LeadsTo problem.now given nogoods matrix.old.bounds →
        NeverFires problem.now given (nogoods ++ nogood_bounds problem.now trace.now nogood.now ∷ more) }
{
    match left_of(problem, trace, nogood, matrix) {
        Left::Nothing => true,
        Left::One(bound) => {
            keep_broken(problem, bound, matrix);
            true
        }
        Left::More => false,
    }
}

/// Fires the nogoods of the lines with these numbers, one after the other. `false` where one cannot be
/// fired.
pub fn fire_all(
    problem: &Problem,
    trace: &[CutAt],
    log: &[LogLine],
    line: &LogLine,
    matrix: &mut Matrix,
) -> bool
    requires trace { IsTraceOf problem.now trace.now }
    requires lines { All (λ f. (f < length log.now) × NamesAreThere problem.now trace.now (nogood_at log.now f)) line.now.fires }
    requires given { Describes problem.now (nogood_bounds problem.now trace.now line.now.nogood) [] matrix.old.bounds }
    ensures keeps { IsMatrixOf problem.now matrix.new.bounds }
    ensures marks { KeepsMarks matrix.old matrix.new }
    ensures yes { result ≡ true →
        LeadsTo problem.now (nogood_bounds problem.now trace.now line.now.nogood) (fired problem.now trace.now log.now line.now) matrix.new.bounds }
    ensures no { result ≡ false →
        NeverFires problem.now (nogood_bounds problem.now trace.now line.now.nogood) (fired problem.now trace.now log.now line.now) }
{
    let fires = line.fires.as_slice();
    'fires: for number in fires {
        let fired = &log[*number as usize];
        if !fire(problem, trace, &fired.nogood, matrix) {
            return false;
        }
    }
    true
}
