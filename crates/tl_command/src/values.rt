//! The values of options, as their arguments spell them.

ghost use Rattle.std.specs.Prelude.{◌≡◌, ◌≢◌, ◌≤◌, ◌∷◌, ℕ, List, [], codes, decimal, IfSome, IfNone};
ghost use Rattle.tl_base.specs.declared.style.Style.{Style};
ghost use Rattle.tl_base.specs.Style.{style_word};
ghost use Rattle.tl_base.specs.declared.search.Search.{Search};
ghost use Rattle.tl_command.specs.declared.options.BreakRule.{BreakRule};
ghost use Rattle.tl_command.specs.Options.{option_words, break_word, search_word, list_word, align_word, IsInRange, IsAlign};
ghost use Rattle.tl_command.specs.Options.{AreFloors, AreWorkers, IsBreakRule};
ghost use Rattle.tl_sides.specs.declared.align.Align.{Align as AnAlign};

use crate::lists::{floors_listed, sides_listed};
use crate::numbers::number_within;
use crate::options::{BreakRule, Choice, MAX_WORKERS};
use tl_base::{MAX_BUDGET, MAX_PAGE_WIDTH, Search, Style};
use tl_sides::Align;

pub(crate) fn style_named(value: &str) -> Option<Choice>
    ensures range { IfSome result IsInRange }
    ensures spelled { IfSome result (λ choice. option_words choice ≡ codes "--style" ∷ value.now ∷ []) }
    ensures none { IfNone result ((style : Style) → style_word style ≢ value.now) }
{
    match value {
        "plain" => Some(Choice::Style(Style::Plain)),
        "compact" => Some(Choice::Style(Style::Compact)),
        "frame" => Some(Choice::Style(Style::Frame)),
        "grid" => Some(Choice::Style(Style::Grid)),
        "box" => Some(Choice::Style(Style::Box)),
        "rule" => Some(Choice::Style(Style::Rule)),
        "apart" => Some(Choice::Style(Style::Apart)),
        _ => None,
    }
}

pub(crate) fn breaking_named(value: &str) -> Option<Choice>
    ensures range { IfSome result IsInRange }
    ensures spelled { IfSome result (λ choice. option_words choice ≡ codes "--break" ∷ value.now ∷ []) }
    ensures none { IfNone result ((rule : BreakRule) → IsBreakRule rule → break_word rule ≢ value.now) }
{
    match value {
        "words" => Some(Choice::Breaking(BreakRule::Words)),
        "any" => Some(Choice::Breaking(BreakRule::Any)),
        "fit" => Some(Choice::Breaking(BreakRule::Fit)),
        _ => {
            let most = number_within(value, 0, MAX_PAGE_WIDTH)?;
            Some(Choice::Breaking(BreakRule::Wider(most)))
        }
    }
}

pub(crate) fn search_named(value: &str) -> Option<Choice>
    ensures range { IfSome result IsInRange }
    ensures spelled { IfSome result (λ choice. option_words choice ≡ codes "--solver" ∷ value.now ∷ []) }
    ensures none { IfNone result ((search : Search) → search_word search ≢ value.now) }
{
    match value {
        "plain" => Some(Choice::Search(Search::Plain)),
        "best" => Some(Choice::Search(Search::Best)),
        "learn" => Some(Choice::Search(Search::Learn)),
        "rounds" => Some(Choice::Search(Search::Rounds)),
        _ => None,
    }
}

pub(crate) fn budget_named(value: &str) -> Option<Choice>
    ensures range { IfSome result IsInRange }
    ensures spelled { IfSome result (λ choice. option_words choice ≡ codes "--budget" ∷ value.now ∷ []) }
    ensures none { IfNone result ((budget : ℕ) → budget ≤ MAX_BUDGET → decimal budget ≢ value.now) }
{
    let budget = number_within(value, 0, MAX_BUDGET)?;
    Some(Choice::Budget(budget))
}

pub(crate) fn workers_named(value: &str) -> Option<Choice>
    ensures range { IfSome result IsInRange }
    ensures spelled { IfSome result (λ choice. option_words choice ≡ codes "--workers" ∷ value.now ∷ []) }
    ensures none { IfNone result ((workers : ℕ) → AreWorkers workers → decimal workers ≢ value.now) }
{
    let workers = number_within(value, 1, MAX_WORKERS)?;
    Some(Choice::Workers(workers))
}

pub(crate) fn least_named(value: &str) -> Option<Choice>
    ensures range { IfSome result IsInRange }
    ensures spelled { IfSome result (λ choice. option_words choice ≡ codes "--least" ∷ value.now ∷ []) }
    ensures none { IfNone result ((floors : List ℕ) → AreFloors floors → list_word floors ≢ value.now) }
{
    let floors = floors_listed(value)?;
    Some(Choice::Least(floors))
}

pub(crate) fn align_named(value: &str) -> Option<Choice>
    ensures range { IfSome result IsInRange }
    ensures spelled { IfSome result (λ choice. option_words choice ≡ codes "--align" ∷ value.now ∷ []) }
    ensures none { IfNone result ((align : AnAlign) → IsAlign align → align_word align ≢ value.now) }
{
    match value {
        "auto" => Some(Choice::Align(Align::Auto)),
        "cells" => Some(Choice::Align(Align::Cells)),
        _ => {
            let sides = sides_listed(value)?;
            Some(Choice::Align(Align::Columns(sides)))
        }
    }
}
