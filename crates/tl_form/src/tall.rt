//! Steps of two things one above the other, where they may need more lines than the limit of heights.

ghost use Rattle.std.specs.Prelude.{◌≡◌, ◌+◌, ◌<◌, ◌≤◌, ◌^◌, max, Some, IfOk};
ghost use Rattle.tl_base.specs.Steps.{AreSteps, first_height, first_width, stacked_height};
ghost use Rattle.tl_form.specs.Problems.{AreStepsOf};

use std::alloc::{AllocError, Global};
use tl_base::{Config, List, MAX_PAGE_WIDTH, Steps};

/// The sum of both heights at a width at which there are both.
fn height_of_both(above: &Steps, below: &Steps, width: u32) -> u32
    requires steps { AreSteps above.now × AreSteps below.now }
    requires small { first_height above.now + first_height below.now < 2 ^ 32 }
    requires wide { max (first_width above.now) (first_width below.now) ≤ width }
    ensures { stacked_height above.now below.now width ≡ Some result }
{
    above.height_at(width).unwrap() + below.height_at(width).unwrap()
}

/// The steps of two things one above the other on a page of `page` columns, be they higher than the limit of
/// heights. It tries each width.
pub fn tall_stack(
    alloc: Global,
    above: &Steps,
    below: &Steps,
    page: u32,
) -> Result<Steps, AllocError>
    requires steps { AreSteps above.now × AreSteps below.now }
    requires small { first_height above.now + first_height below.now < 2 ^ 32 }
    requires within { max (first_width above.now) (first_width below.now) ≤ page }
    requires narrow { page ≤ MAX_PAGE_WIDTH }
    ensures { IfOk result (AreStepsOf (λ w h. stacked_height above.now below.now w ≡ Some h) page) }
{
    let start = above.least().max(below.least());
    let mut lowest = height_of_both(above, below, start);
    let mut list = List::new(alloc);
    list.push(Config {
        width: start,
        height: lowest,
    })?;
    for width in start + 1..page + 1 {
        let height = height_of_both(above, below, width);
        if height < lowest {
            list.push(Config { width, height })?;
            lowest = height;
        }
    }
    Ok(Steps::from_list(list))
}
