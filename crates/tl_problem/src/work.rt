//! Buffers for one problem: the constraints on the places of its columns, and room for its bounds.

ghost use Rattle.std.specs.Prelude.{◌≡◌, [], IfOk};
ghost use Rattle.tl_problem.specs.Works.{HasPage};

use crate::Problem;
use crate::constraints::page_matrix;
use crate::demands::NO_ARC;
use std::alloc::AllocError;
use tl_diff::{Arc, Matrix};

/// Buffers for the calls that find bounds of one problem. Its matrix has the constraints on the places
/// where the columns begin: variable `k` is the place of column `k`, and the last one is where the
/// columns end, a gap after the last. The room of a span of columns is so the difference of two
/// variables less a gap.
#[derive(Debug)]
pub struct Work {
    /// The constraints: at first those of the page and of the least widths. A caller may add others.
    pub matrix: Matrix,
    // The constraints of the page and of the least widths, to which a zone adds its own while its bound is found.
    pub(crate) start: Matrix,
    pub(crate) demands: Vec<u32>,
    pub(crate) arcs: Vec<Arc>,
    pub(crate) ends: Vec<u32>,
}

impl Drop for Work {
    fn drop(self) {
        let Work {
            matrix: _matrix,
            start: _start,
            demands: _demands,
            arcs: _arcs,
            ends: _ends,
        } = self;
    }
}

impl Work {
    /// Buffers for the problem, with the constraints of its page and its least widths.
    pub fn new(problem: &Problem) -> Result<Work, AllocError>
        ensures page { IfOk result (HasPage problem.now) }
        ensures none_held { IfOk result (λ work. work.matrix.held ≡ []) }
        ensures marks { IfOk result (λ work. work.matrix.marks ≡ 4) }
    {
        let alloc = problem.alloc();
        let cells = problem.cells().len();
        let matrix = page_matrix(problem)?;
        let start = page_matrix(problem)?;
        Ok(Work {
            matrix,
            start,
            demands: vec![in alloc; 0; cells]?,
            arcs: vec![in alloc; NO_ARC; cells]?,
            ends: vec![in alloc; 0; problem.rows() as usize + 1]?,
        })
    }
}
