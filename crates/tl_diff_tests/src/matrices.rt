//! A matrix against constraints that are closed anew, and small cases counted by hand.

ghost use Rattle.std.specs.Prelude.{◌≡◌, ◌<◌, length};
ghost use Rattle.tl_diff.specs.Bounds.{IsSatisfiable};

use std::process::Abort;
use std::test::Fail;
use tl_diff::{MAX_MARKS, MAX_VARIABLES, Matrix};

const VARIABLES: usize = 7;

const MARKS: u32 = 4;

/// The constraint `x_to <= x_from + most`, as it was given.
#[derive(Clone, Copy)]
struct Given {
    from: usize,
    to: usize,
    most: i64,
}

/// The constraints given so far, and how many there were at each mark.
#[derive(Drop)]
struct History {
    given: Vec<Given>,
    marks: Vec<usize>,
}

/// Numbers that look random: the high bits of a linear sequence modulo 2^31.
#[derive(Drop)]
struct Draws {
    state: u64,
}

impl Draws {
    fn draw(&mut self, choices: u64) -> u64
        requires { 0 < choices }
        ensures { result < choices }
    {
        self.state = self.state.wrapping_mul(1_103_515_245).wrapping_add(12345) % (1 << 31);
        (self.state / 65536) % choices
    }
}

/// The tightest bound from variable `start` to each variable: every constraint is taken in turn, as
/// often as there are variables.
fn closed_anew(given: &[Given], start: usize) -> [Option<i64>; VARIABLES] {
    let mut far: [Option<i64>; VARIABLES] = [None; VARIABLES];
    if start < VARIABLES {
        far[start] = Some(0);
    }
    for _ in 0..VARIABLES {
        for bound in given {
            if bound.from < VARIABLES
                && bound.to < VARIABLES
                && let Some(from) = far[bound.from]
            {
                let through = from.saturating_add(bound.most);
                if far[bound.to].is_none_or(|to| through < to) {
                    far[bound.to] = Some(through);
                }
            }
        }
    }
    far
}

/// Asserts that the matrix agrees with the constraints closed anew, and returns whether some
/// assignment satisfies them.
fn agree(rt: &impl Abort, matrix: &Matrix, given: &[Given]) -> bool
    requires { matrix.now.bounds.n ≡ 7 }
{
    let holds = matrix.holds();
    let mut met = true;
    for a in 0..VARIABLES {
        let far = closed_anew(given, a);
        met &= far[a] == Some(0);
        if holds {
            for b in 0..VARIABLES {
                let upper = matrix.upper(a as u32, b as u32).map(i64::from);
                assert_eq!(rt; upper, far[b], "from {a} to {b} of {} bounds", given.len());
            }
        }
    }
    assert_eq!(rt; holds, met, "at {} bounds", given.len());
    holds
}

#[test]
fn a_matrix_agrees_with_constraints_closed_anew(rt: HostRuntime) -> Result<(), Fail> {
    let mut draws = Draws { state: 0 };
    let mut matrix = Matrix::new(rt.alloc(), 7, MARKS)?;
    let mut history = History {
        given: Vec::new(rt.alloc()),
        marks: Vec::new(rt.alloc()),
    };
    let mut refused: u32 = 0;
    let mut undone: u32 = 0;
    for _ in 0..200u32 {
        let kind = draws.draw(8);
        if matrix.held() == 0 || (kind == 0 && matrix.held() < MARKS) {
            matrix.mark();
            history.marks.push(history.given.len())?;
        } else if !matrix.holds() || kind == 1 {
            matrix.undo();
            history.given.truncate(history.marks.pop().unwrap_or(0));
            undone += 1;
        } else {
            let from = draws.draw(7) as usize;
            let to = draws.draw(7) as usize;
            let most = draws.draw(24) as i32 - 8;
            history.given.push(Given {
                from,
                to,
                most: i64::from(most),
            })?;
            if !matrix.bound(from as u32, to as u32, most) {
                refused += 1;
            }
        }
        agree(&rt, &matrix, &history.given);
    }
    assert!(rt; refused > 5, "{refused} bounds were refused");
    assert!(rt; undone > 20, "{undone} marks were undone");
    Ok(())
}

/// The least assignment, once every variable is seen to be bounded from below.
fn least(rt: &impl Abort, matrix: &Matrix, out: &mut [i32])
    requires variables { matrix.now.bounds.n ≡ 3 }
    requires room { length out.old ≡ 3 }
    requires holds { IsSatisfiable matrix.now.bounds }
{
    for variable in 0..3 {
        assert!(rt; matrix.upper(variable, 0).is_some());
    }
    matrix.solve_least(out);
}

// `x_0 <= x_1 - 2`, `x_1 <= x_2 - 3` and `x_2 <= x_0 + 9`.
#[test]
fn three_variables_have_the_bounds_counted_by_hand(rt: HostRuntime) -> Result<(), Fail> {
    let mut matrix = Matrix::new(rt.alloc(), 3, 1)?;
    assert!(rt; matrix.holds());
    assert_eq!(rt; matrix.upper(0, 2), None);
    assert!(rt; matrix.bound(1, 0, -2));
    assert!(rt; matrix.bound(2, 1, -3));
    assert!(rt; matrix.bound(0, 2, 9));
    let want = [[0, 6, 9], [-2, 0, 7], [-5, -3, 0]];
    for a in 0..3 {
        for b in 0..3 {
            assert_eq!(rt;
                matrix.upper(a as u32, b as u32),
                Some(want[a][b]),
                "from {a} to {b}"
            );
        }
    }
    let mut out = [9; 3];
    least(&rt, &matrix, &mut out);
    assert_eq!(rt; out, [0, 2, 5]);
    matrix.mark();
    assert!(rt; !matrix.bound(0, 2, 4));
    assert!(rt; !matrix.holds());
    matrix.undo();
    assert_eq!(rt; matrix.held(), 0);
    assert!(rt; matrix.holds());
    assert_eq!(rt; matrix.upper(0, 2), Some(9));
    Ok(())
}

#[test]
fn the_draws_are_the_known_sequence(rt: HostRuntime) {
    let mut draws = Draws { state: 0 };
    for want in [
        12345,
        1_406_932_606,
        654_583_775,
        1_449_466_924,
        229_283_573,
    ] {
        draws.draw(1);
        assert_eq!(rt; draws.state, want);
    }
}

// `x_(k+1) >= x_k + 2` for all k, one mark after another: variable 63 is at least at 126.
#[test]
fn the_most_variables_and_marks_are_held(rt: HostRuntime) -> Result<(), Fail> {
    let mut matrix = Matrix::new(rt.alloc(), MAX_VARIABLES, MAX_MARKS)?;
    'marks: for _ in 0..MAX_MARKS {
        matrix.mark();
    }
    for variable in 0..63 {
        assert!(rt; matrix.bound(variable + 1, variable, -2));
    }
    assert_eq!(rt; matrix.upper(63, 0), Some(-126));
    'undone: for _ in 0..MAX_MARKS {
        matrix.undo();
    }
    assert!(rt; matrix.holds());
    assert_eq!(rt; matrix.upper(63, 0), None);
    Ok(())
}
