//! Step functions from widths to heights: what a paragraph or a cell needs at each width.
ghost use Rattle.std.specs.Prelude.{◌≡◌, ℕ, ◌+◌, ◌<◌, ◌≤◌, ◌↔◌, max, length, Some, None, IsTrue, IsNone, IsSome, IfSome, IfNone, IfOk, SomeIff};
ghost use Rattle.std.specs.List.{last_or};
ghost use Rattle.tl_base.specs.inner.Stacking.{IsPastNarrow, IsNextWidth};
ghost use Rattle.tl_base.specs.Steps.{AreSteps, IsLeastWidthFor, first_width, first_height, height_at, stacked_height};

use crate::List;
use crate::limits::MAX_HEIGHT;
use std::alloc::{AllocError, Global};
use std::marker::Model;

/// One step: from `width` columns on, up to the next step's, `height` lines are enough.
#[derive(Clone, Copy, Debug, PartialEq, Eq)]
pub struct Config {
    pub width: u32,
    pub height: u32,
}

/// A decreasing step function from widths to heights. Contracts see it as the list of its steps, at
/// least one, whose widths rise strictly and whose heights fall strictly.
#[derive(Debug, Drop)]
pub struct Steps {
    configs: List<Config>,
}

impl Model for Steps {
    ghost use Rattle.std.specs.Prelude.{List};
    ghost use Rattle.tl_base.specs.declared.steps.Config.{Config};

    ghost Value = { List Config };

    ghost use Rattle.tl_base.specs.Steps.{AreSteps};

    ghost view = { λ steps. steps.configs };

    ghost invariant = { λ steps. AreSteps steps.configs };
}

impl Steps {
    /// The step function with these steps. `None` exactly where the list is empty, or the widths
    /// do not rise strictly, or the heights do not fall strictly.
    pub fn new(list: List<Config>) -> Option<Steps>
        ensures { SomeIff result (AreSteps list) list }
    {
        if are_steps(list.as_slice()) {
            Some(Steps { configs: list })
        } else {
            None
        }
    }

    /// The step function with these steps, for a caller that knows that they are steps.
    pub fn from_list(list: List<Config>) -> Steps
        requires { AreSteps list }
        ensures { result ≡ list }
    {
        Steps { configs: list }
    }

    /// The step function of two things one above the other: at each width the height is the sum of
    /// both heights, and the least width is the greater of both.
    pub fn stack(alloc: Global, a: &Steps, b: &Steps) -> Result<Steps, AllocError>
        requires { first_height a.now + first_height b.now ≤ MAX_HEIGHT }
        ensures least { IfOk result (λ steps. first_width steps ≡ max (first_width a.now) (first_width b.now)) }
        ensures heights { IfOk result (λ steps. (w : ℕ) → height_at steps w ≡ stacked_height a.now b.now w) }
    {
        let mut list = List::new(alloc);
        let mut width = least_of_both(a, b);
        loop {
            let height = height_of_both(a, b, width);
            list.push(Config { width, height })?;
            match next_of_both(a, b, width) {
                Some(next) => width = next,
                None => return Ok(Steps::from_list(list)),
            }
        }
    }

    /// Lends the steps, in order.
    pub fn configs(&self) -> &[Config]
        ensures configs { result.now ≡ self.now }
        ensures sound { AreSteps self.now }
    {
        self.configs.as_slice()
    }

    /// The first width: below it there is no height.
    pub fn least(&self) -> u32
        ensures { result ≡ first_width self.now }
    {
        self.configs.as_slice()[0].width
    }

    /// The first height, in lines: at each other width the height is at most this.
    pub fn max_height(&self) -> u32
        ensures { result ≡ first_height self.now }
    {
        self.configs.as_slice()[0].height
    }

    /// The height at the width `w`: that of the last step whose width is at most `w`. `None`
    /// exactly where `w` is below the first width.
    pub fn height_at(&self, w: u32) -> Option<u32>
        ensures height { result ≡ height_at self.now w }
        ensures none { IsNone result ↔ (w < first_width self.now) }
    {
        let narrow = self.steps_up_to(w);
        if narrow == 0 {
            return None;
        }
        Some(self.configs()[narrow - 1].height)
    }

    /// The least width at which the height is at most `h`. `None` exactly where the last height is
    /// above `h`.
    pub fn width_for(&self, h: u32) -> Option<u32>
        ensures least { IfSome result (IsLeastWidthFor self.now h) }
        ensures none { IfSome (last_or None self.now) (λ last. IsNone result ↔ (h < last.height)) }
    {
        let configs = self.configs.as_slice();
        let first = configs.partition_point(|config| config.height > h);
        if first == configs.len() {
            return None;
        }
        Some(configs[first].width)
    }

    /// The number of steps whose width is at most `w`.
    fn steps_up_to(&self, w: u32) -> usize
        ensures bound { result ≤ length self.now }
        ensures point { IsPastNarrow self.now w result }
        ensures sound { AreSteps self.now }
    {
        self.configs
            .as_slice()
            .partition_point(|config| config.width <= w)
    }

    /// The height at a width at which there is one.
    fn height_within(&self, w: u32) -> u32
        requires { first_width self.now ≤ w }
        ensures height { height_at self.now w ≡ Some result }
        ensures bound { result ≤ first_height self.now }
    {
        let narrow = self.steps_up_to(w);
        self.configs()[narrow - 1].height
    }

    /// The least width above `w` at which a step begins. Up to it the height is that at `w`.
    fn next_width(&self, w: u32) -> Option<u32>
        requires { first_width self.now ≤ w }
        ensures next { IfSome result (IsNextWidth (height_at self.now) w) }
        ensures none { IfNone result ((v : ℕ) → w ≤ v → height_at self.now v ≡ height_at self.now w) }
        ensures some { IsSome (height_at self.now w) }
    {
        let narrow = self.steps_up_to(w);
        if narrow == self.configs().len() {
            return None;
        }
        Some(self.configs()[narrow].width)
    }
}

/// The greater of both first widths: below it there is no height.
fn least_of_both(a: &Steps, b: &Steps) -> u32
    ensures least { result ≡ max (first_width a.now) (first_width b.now) }
    ensures none { (v : ℕ) → v < result → stacked_height a.now b.now v ≡ None }
{
    a.configs()[0].width.max(b.configs()[0].width)
}

/// The sum of the heights at a width at which there are both.
fn height_of_both(a: &Steps, b: &Steps, width: u32) -> u32
    requires small { first_height a.now + first_height b.now ≤ MAX_HEIGHT }
    requires in_a { first_width a.now ≤ width }
    requires in_b { first_width b.now ≤ width }
    ensures { stacked_height a.now b.now width ≡ Some result }
{
    a.height_within(width) + b.height_within(width)
}

/// The least width above this one at which a step of either begins.
fn next_of_both(a: &Steps, b: &Steps, width: u32) -> Option<u32>
    requires in_a { first_width a.now ≤ width }
    requires in_b { first_width b.now ≤ width }
    ensures next { IfSome result (IsNextWidth (stacked_height a.now b.now) width) }
    ensures none { IfNone result ((v : ℕ) → width ≤ v → stacked_height a.now b.now v ≡ stacked_height a.now b.now width) }
{
    match (a.next_width(width), b.next_width(width)) {
        (Some(in_a), Some(in_b)) => Some(in_a.min(in_b)),
        (Some(in_a), None) => Some(in_a),
        (None, in_b) => in_b,
    }
}

/// Whether there is a step, and each is wider and lower than the one before it.
fn are_steps(configs: &[Config]) -> bool
    ensures { IsTrue result ↔ AreSteps configs.now }
{
    for i in 1..configs.len() {
        if configs[i].width <= configs[i - 1].width || configs[i].height >= configs[i - 1].height {
            return false;
        }
    }
    !configs.is_empty()
}

#[cfg(test)]
mod tests {
    use super::{Config, Steps};
    use crate::{List, MAX_HEIGHT, Style};
    use std::alloc::{AllocError, Global};
    use std::process::Abort;
    use std::test::Fail;

    fn steps(alloc: Global, pairs: &[(u32, u32)]) -> Result<Option<Steps>, AllocError> {
        let mut list = List::new(alloc);
        for &(width, height) in pairs {
            list.push(Config { width, height })?;
        }
        Ok(Steps::new(list))
    }

    #[test]
    fn a_list_is_of_steps_where_widths_rise_and_heights_fall(rt: HostRuntime) -> Result<(), Fail> {
        for (pairs, is) in [
            ([].as_slice(), false),
            ([(0, 0)].as_slice(), true),
            ([(2, 3), (5, 2), (8, 1)].as_slice(), true),
            ([(2, 3), (5, 3)].as_slice(), false),
            ([(2, 3), (5, 4)].as_slice(), false),
            ([(2, 3), (2, 2)].as_slice(), false),
            ([(5, 3), (2, 2)].as_slice(), false),
            ([(2, 3), (5, 2), (4, 1)].as_slice(), false),
        ] {
            assert_eq!(rt; steps(rt.alloc(), pairs)?.is_some(), is, "{pairs:?}");
        }
        Ok(())
    }

    // Three words of two columns: in 2 columns three lines, in 5 two, in 8 one.
    #[test]
    fn the_height_falls_at_each_step_and_stays_between(rt: HostRuntime) -> Result<(), Fail> {
        let three_words = steps(rt.alloc(), &[(2, 3), (5, 2), (8, 1)])?.ok_or("three steps")?;
        assert_eq!(rt; three_words.least(), 2);
        for (width, height) in [
            (0, None),
            (1, None),
            (2, Some(3)),
            (4, Some(3)),
            (5, Some(2)),
            (7, Some(2)),
            (8, Some(1)),
            (u32::MAX, Some(1)),
        ] {
            is_height(&rt, &three_words, width, height);
        }
        for (height, width) in [
            (0, None),
            (1, Some(8)),
            (2, Some(5)),
            (3, Some(2)),
            (u32::MAX, Some(2)),
        ] {
            is_width(&rt, &three_words, height, width);
        }
        Ok(())
    }

    /// Asserts the height at this width.
    fn is_height(rt: &impl Abort, steps: &Steps, width: u32, wanted: Option<u32>) {
        assert_eq!(rt; steps.height_at(width), wanted, "width {width}");
    }

    /// Asserts the least width for this height.
    fn is_width(rt: &impl Abort, steps: &Steps, height: u32, wanted: Option<u32>) {
        assert_eq!(rt; steps.width_for(height), wanted, "height {height}");
    }

    /// Two step functions one above the other, unless together they are too high.
    fn stacked(
        alloc: Global,
        above: &[(u32, u32)],
        below: &[(u32, u32)],
    ) -> Result<Option<Steps>, AllocError> {
        let (Some(above), Some(below)) = (steps(alloc, above)?, steps(alloc, below)?) else {
            return Ok(None);
        };
        if u64::from(above.max_height()) + u64::from(below.max_height()) > u64::from(MAX_HEIGHT) {
            return Ok(None);
        }
        Ok(Some(Steps::stack(alloc, &above, &below)?))
    }

    /// Asserts that the stack of both has the steps wanted.
    fn is_stack(
        rt: &impl Abort,
        alloc: Global,
        above: &[(u32, u32)],
        below: &[(u32, u32)],
        wanted: &[(u32, u32)],
    ) -> Result<(), Fail> {
        let stacked = stacked(alloc, above, below)?.ok_or("steps")?;
        let wanted = steps(alloc, wanted)?.ok_or("steps")?;
        assert_eq!(rt; stacked.configs(), wanted.configs());
        Ok(())
    }

    // Two words, of four columns and of one, under three words of two columns; and the greatest heights.
    #[test]
    fn stacked_heights_are_added_at_each_width(rt: HostRuntime) -> Result<(), Fail> {
        let alloc = rt.alloc();
        let three_words = [(2, 3), (5, 2), (8, 1)];
        let two_words = [(4, 2), (6, 1)];
        let both = [(4, 5), (5, 4), (6, 3), (8, 2)];
        is_stack(&rt, alloc, &three_words, &two_words, &both)?;
        is_stack(&rt, alloc, &two_words, &three_words, &both)?;
        let highest = [(1, 536_870_912), (u32::MAX, 0)];
        let wanted = [(1, 1_073_741_824), (u32::MAX, 0)];
        is_stack(&rt, alloc, &highest, &highest, &wanted)
    }

    /// So many steps, each a line lower than the one before and `apart` columns wider.
    fn falling(
        alloc: Global,
        first: (u32, u32),
        apart: u32,
        count: u32,
    ) -> Result<List<(u32, u32)>, AllocError> {
        let (mut width, mut height) = first;
        let mut pairs = List::new(alloc);
        for _ in 0..count {
            pairs.push((width, height))?;
            width = width.saturating_add(apart);
            height = height.saturating_sub(1);
        }
        Ok(pairs)
    }

    // Each has a step at every second width, one at the odd and one at the even ones: the stack falls
    // by a line at each width from 2 to 500.
    #[test]
    fn a_stack_has_each_step_of_both(rt: HostRuntime) -> Result<(), Fail> {
        let alloc = rt.alloc();
        let odd = falling(alloc, (1, 250), 2, 250)?;
        let even = falling(alloc, (2, 250), 2, 250)?;
        let wanted = falling(alloc, (2, 500), 1, 499)?;
        is_stack(
            &rt,
            alloc,
            odd.as_slice(),
            even.as_slice(),
            wanted.as_slice(),
        )
    }

    #[test]
    fn each_style_has_its_gaps_and_edge(rt: HostRuntime) {
        for (style, gap, row_gap, edge) in [
            (Style::Plain, 2, 0, 0),
            (Style::Compact, 1, 0, 0),
            (Style::Frame, 1, 1, 1),
            (Style::Grid, 1, 1, 1),
            (Style::Box, 1, 1, 1),
            (Style::Rule, 1, 0, 0),
            (Style::Apart, 1, 0, 0),
        ] {
            assert_eq!(rt;
                (style.gap(), style.row_gap(), style.edge()),
                (gap, row_gap, edge)
            );
        }
    }
}
