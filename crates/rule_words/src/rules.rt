//! Reading a rule word by word.

ghost use Rattle.std.specs.Prelude.{◌≡◌, ◌||◌, not, IfOk};
ghost use Rattle.rule_words.specs.Goes.{Goes};
ghost use Rattle.rule_words.specs.Lines.{fresh, settled, takes_item, with_item, marked_by};
ghost use Rattle.rule_words.specs.Lines.{call_by, called_by, paired, valued_by};
ghost use Rattle.rule_words.specs.Lines.{replaced_by, by_word, from_word};
ghost use Rattle.rule_words.specs.Lines.{is_one_glyph, is_one_set, by_glyphs, by_set};
ghost use Rattle.rule_words.specs.Lines.{is_enumerated, is_pos, is_pair, is_sub, is_ignore};
ghost use Rattle.rule_words.specs.Lines.{is_empty, only_of, rule_entry, placed};
ghost use Rattle.rule_words.specs.Lines.{marked_context, is_mark, next_context};
ghost use Rattle.rule_words.specs.Lines.{ended_by, ended_items, is_glyph, is_set};
ghost use Rattle.rule_words.specs.Lines.{takes_value_by, is_behind_pos};
ghost use Rattle.rule_words.specs.declared.line.Line.TheVariants as lines;

use crate::line::{Entry, Items, Line, Open, Replaced, Stop, Verb};
use feature_grammar::{Context, GlyphSet, Item, Marked, Name, Rule, Statement, Value};
use plain_lists::Sequence;
use refusal_codes::NoMemory;
use std::alloc::Global;

/// A rule of which this is the first word.
pub fn fresh(alloc: Global, place: usize, verb: Verb, contexts: Sequence<Context>) -> Items
    ensures { result ≡ fresh place verb contexts }
{
    Items {
        place,
        verb,
        contexts,
        before: Sequence::new(alloc),
        marked: Sequence::new(alloc),
        after: Sequence::new(alloc),
        last: Open::Nothing,
    }
}

fn is_enumerated(verb: Verb) -> bool
    ensures { result ≡ is_enumerated verb }
{
    match verb {
        Verb::EnumPos => true,
        _ => false,
    }
}

fn is_pos(verb: Verb) -> bool
    ensures { result ≡ is_pos verb }
{
    match verb {
        Verb::Pos | Verb::IgnorePos => true,
        _ => false,
    }
}

fn is_pair(verb: Verb) -> bool
    ensures { result ≡ is_pair verb }
{
    match verb {
        Verb::Pos | Verb::EnumPos => true,
        _ => false,
    }
}

fn is_sub(verb: Verb) -> bool
    ensures { result ≡ is_sub verb }
{
    match verb {
        Verb::Sub => true,
        _ => false,
    }
}

fn is_ignore(verb: Verb) -> bool
    ensures { result ≡ is_ignore verb }
{
    match verb {
        Verb::IgnoreSub | Verb::IgnorePos => true,
        _ => false,
    }
}

/// Whether there is none.
fn is_none_of<T>(items: &Sequence<T>) -> bool
    ensures { result ≡ is_empty items.now }
{
    match items.as_slice() {
        [] => true,
        _ => false,
    }
}

/// The items of a rule, the last of which has its place.
fn placed(
    mut before: Sequence<Item>,
    mut marked: Sequence<Marked>,
    mut after: Sequence<Item>,
    last: Open,
) -> Result<Context, NoMemory>
    ensures { IfOk result (λ context. context ≡ placed before marked after last) }
{
    match last {
        Open::Nothing => {}
        Open::Item(item) => {
            if is_none_of(&marked) {
                before.push(item)?;
            } else {
                after.push(item)?;
            }
        }
        Open::Mark(mark) => marked.push(mark)?,
    }
    Ok(Context {
        before,
        marked,
        after,
    })
}

/// The rule, whose last item has its place.
#[tactic(auto, unfolding(crate::specs::Lines::settled, crate::specs::Lines::placed_items))]
fn settled(items: Items) -> Result<Items, NoMemory>
    ensures { IfOk result (λ now. now ≡ settled items) }
{
    let Items {
        place,
        verb,
        contexts,
        before,
        marked,
        after,
        last,
    } = items;
    let context = placed(before, marked, after, last)?;
    Ok(Items {
        place,
        verb,
        contexts,
        before: context.before,
        marked: context.marked,
        after: context.after,
        last: Open::Nothing,
    })
}

/// Whether the rule can have one more item.
#[tactic(auto, unfolding(crate::specs::Lines::takes_item))]
pub fn takes_item(items: &Items) -> bool
    ensures { result ≡ takes_item items.now }
{
    !is_enumerated(items.verb) || is_none_of(&items.before)
}

/// The rule with one more item.
#[tactic(auto, unfolding(crate::specs::Lines::with_item))]
pub fn with_item(items: Items, item: Item) -> Result<Line, Stop>
    ensures { Goes result (with_item items item) }
{
    if !takes_item(&items) {
        return Err(Stop::Refused);
    }
    let mut items = settled(items)?;
    items.last = Open::Item(item);
    Ok(Line::Items(items))
}

/// The rule whose last item is marked.
pub fn marked(alloc: Global, items: Items) -> Result<Line, Stop>
    ensures { Goes result (marked_by items items.last) }
{
    if is_enumerated(items.verb) || !is_none_of(&items.after) {
        return Err(Stop::Refused);
    }
    let Items {
        place,
        verb,
        contexts,
        before,
        marked,
        after,
        last,
    } = items;
    match last {
        Open::Item(item) => Ok(Line::Items(Items {
            place,
            verb,
            contexts,
            before,
            marked,
            after,
            last: Open::Mark(Marked {
                item,
                calls: Sequence::new(alloc),
                value: None,
            }),
        })),
        _ => Err(Stop::Refused),
    }
}

/// The rule whose last item calls a lookup that the next word names.
pub fn call(items: Items) -> Result<Line, Stop>
    ensures { Goes result (call_by items items.last) }
{
    let calls = match &items.last {
        Open::Mark(mark) => mark.value.is_none(),
        _ => false,
    };
    if calls {
        Ok(Line::Call(items))
    } else {
        Err(Stop::Refused)
    }
}

/// The rule whose last item calls this lookup.
pub fn called(items: Items, name: Name) -> Result<Line, Stop>
    ensures { Goes result (called_by items name items.last) }
{
    let Items {
        place,
        verb,
        contexts,
        before,
        marked,
        after,
        last,
    } = items;
    match last {
        Open::Mark(mark) => {
            let Marked {
                item,
                mut calls,
                value,
            } = mark;
            calls.push(name)?;
            Ok(Line::Items(Items {
                place,
                verb,
                contexts,
                before,
                marked,
                after,
                last: Open::Mark(Marked { item, calls, value }),
            }))
        }
        _ => Err(Stop::Refused),
    }
}

/// A rule that lacks its `;` alone.
pub fn ready(place: usize, rule: Rule) -> Line
    ensures { result ≡ lines.Ready (rule_entry place rule) }
{
    Line::Ready(Entry::Statement(Statement::Rule { place, rule }))
}

/// The only item, where there is one.
fn only(items: Sequence<Item>) -> Option<Item>
    ensures { result ≡ only_of items }
{
    let mut items = items.into_vec();
    match items.pop() {
        Some(item) if items.is_empty() => Some(item),
        _ => None,
    }
}

/// A rule with a value behind its last item, which is not marked.
#[tactic(auto, unfolding(crate::specs::Lines::paired))]
fn paired(
    place: usize,
    enumerated: bool,
    before: Sequence<Item>,
    item: Item,
    value: Value,
) -> Result<Line, Stop>
    ensures { Goes result (paired place enumerated before item value) }
{
    if is_none_of(&before) {
        return Ok(Line::First {
            place,
            enumerated,
            item,
            value,
        });
    }
    match only(before) {
        Some(first) => Ok(ready(
            place,
            Rule::PairPosAfter {
                enumerated,
                first,
                second: item,
                value,
            },
        )),
        None => Err(Stop::Refused),
    }
}

/// A rule with a value behind its last item.
pub fn valued(items: Items, value: Value) -> Result<Line, Stop>
    ensures { Goes result (valued_by items value items.last) }
{
    let Items {
        place,
        verb,
        contexts,
        before,
        marked,
        after,
        last,
    } = items;
    match last {
        Open::Nothing => Err(Stop::Refused),
        Open::Item(item) => {
            if is_pair(verb) && is_none_of(&marked) {
                paired(place, is_enumerated(verb), before, item, value)
            } else {
                Err(Stop::Refused)
            }
        }
        Open::Mark(mark) => {
            let Marked {
                item,
                calls,
                value: earlier,
            } = mark;
            if !is_pos(verb) || earlier.is_some() {
                return Err(Stop::Refused);
            }
            Ok(Line::Items(Items {
                place,
                verb,
                contexts,
                before,
                marked,
                after,
                last: Open::Mark(Marked {
                    item,
                    calls,
                    value: Some(value),
                }),
            }))
        }
    }
}

/// The context of these items, where one is marked.
fn context_of(
    before: Sequence<Item>,
    marked: Sequence<Marked>,
    after: Sequence<Item>,
    last: Open,
) -> Result<Option<Context>, NoMemory>
    ensures { IfOk result (λ c. c ≡ marked_context (placed before marked after last)) }
{
    let context = placed(before, marked, after, last)?;
    if is_none_of(&context.marked) {
        Ok(None)
    } else {
        Ok(Some(context))
    }
}

/// An `ignore` rule behind the comma after a context.
#[tactic(auto, unfolding(crate::specs::Lines::next_context, crate::specs::Lines::context_of))]
pub fn next_context(alloc: Global, items: Items) -> Result<Line, Stop>
    ensures { Goes result (next_context items) }
{
    let Items {
        place,
        verb,
        mut contexts,
        before,
        marked,
        after,
        last,
    } = items;
    match context_of(before, marked, after, last)? {
        Some(context) => {
            if !is_ignore(verb) {
                return Err(Stop::Refused);
            }
            contexts.push(context)?;
            Ok(Line::Items(fresh(alloc, place, verb, contexts)))
        }
        None => Err(Stop::Refused),
    }
}

/// Whether an item is marked.
fn has_mark(marked: &Sequence<Marked>, last: &Open) -> bool
    ensures { result ≡ (not (is_empty marked.now) || is_mark last.now) }
{
    match last {
        Open::Mark(_) => true,
        _ => !is_none_of(marked),
    }
}

/// What a `sub` rule replaces, `None` where it has no item yet.
fn replaced(
    mut before: Sequence<Item>,
    marked: Sequence<Marked>,
    after: Sequence<Item>,
    last: Open,
) -> Result<Option<Replaced>, NoMemory>
    ensures { IfOk result (λ what. what ≡ replaced_by before marked after last) }
{
    if has_mark(&marked, &last) {
        let context = placed(before, marked, after, last)?;
        return Ok(Some(Replaced::Context(context)));
    }
    match last {
        Open::Item(item) => {
            if is_none_of(&before) {
                return Ok(Some(Replaced::One(item)));
            }
            before.push(item)?;
            Ok(Some(Replaced::Many(before)))
        }
        Open::Nothing => Ok(None),
        Open::Mark(_mark) => Ok(None),
    }
}

/// A `sub` rule behind `by`.
#[tactic(auto, unfolding(crate::specs::Lines::by_word))]
pub fn by_word(items: Items) -> Result<Line, Stop>
    ensures { Goes result (by_word items) }
{
    let Items {
        place,
        verb,
        before,
        marked,
        after,
        last,
        ..
    } = items;
    if !is_sub(verb) {
        return Err(Stop::Refused);
    }
    match replaced(before, marked, after, last)? {
        Some(what) => Ok(Line::By {
            place,
            replaced: what,
        }),
        None => Err(Stop::Refused),
    }
}

/// A `sub` rule behind `from`.
#[tactic(auto, unfolding(crate::specs::Lines::from_word))]
pub fn from_word(items: Items) -> Result<Line, Stop>
    ensures { Goes result (from_word items) }
{
    let Items {
        place,
        verb,
        before,
        marked,
        last,
        ..
    } = items;
    match last {
        Open::Item(item) => {
            if is_sub(verb) && is_none_of(&before) && is_none_of(&marked) {
                Ok(Line::From { place, item })
            } else {
                Err(Stop::Refused)
            }
        }
        _ => Err(Stop::Refused),
    }
}

/// The rule that `;` ends after its items.
fn ended(verb: Verb, mut contexts: Sequence<Context>, context: Context) -> Result<Rule, Stop>
    ensures { Goes result (ended_by verb contexts context) }
{
    match verb {
        Verb::Sub => Ok(Rule::ContextSub(context)),
        Verb::Pos => Ok(Rule::ContextPos(context)),
        Verb::EnumPos => Err(Stop::Refused),
        Verb::IgnoreSub => {
            contexts.push(context)?;
            Ok(Rule::IgnoreSub(contexts))
        }
        Verb::IgnorePos => {
            contexts.push(context)?;
            Ok(Rule::IgnorePos(contexts))
        }
    }
}

/// A rule that lacks its `;` alone.
pub fn rule_entry(place: usize, rule: Rule) -> Entry
    ensures { result ≡ rule_entry place rule }
{
    Entry::Statement(Statement::Rule { place, rule })
}

/// The rule that `;` ends after its items.
#[tactic(auto, unfolding(crate::specs::Lines::ended_items, crate::specs::Lines::context_of))]
pub fn ended_items(items: Items) -> Result<Entry, Stop>
    ensures { Goes result (ended_items items) }
{
    let Items {
        place,
        verb,
        contexts,
        before,
        marked,
        after,
        last,
    } = items;
    match context_of(before, marked, after, last)? {
        Some(context) => Ok(rule_entry(place, ended(verb, contexts, context)?)),
        None => Err(Stop::Refused),
    }
}

fn is_glyph(item: &Item) -> bool
    ensures { result ≡ is_glyph item.now }
{
    match item {
        Item::Glyph(_) => true,
        Item::Set(_) => false,
    }
}

fn is_set(item: &Item) -> bool
    ensures { result ≡ is_set item.now }
{
    match item {
        Item::Glyph(_) => false,
        Item::Set(_) => true,
    }
}

/// Whether several glyphs may replace this.
#[tactic(auto, unfolding(crate::specs::Lines::is_one_glyph))]
pub fn is_one_glyph(replaced: &Replaced) -> bool
    ensures { result ≡ is_one_glyph replaced.now }
{
    match replaced {
        Replaced::One(item) => is_glyph(item),
        Replaced::Many(_) => false,
        Replaced::Context(context) => match context.marked.as_slice() {
            [mark] => is_glyph(&mark.item),
            _ => false,
        },
    }
}

/// Whether a set may replace this.
#[tactic(auto, unfolding(crate::specs::Lines::is_one_set))]
pub fn is_one_set(replaced: &Replaced) -> bool
    ensures { result ≡ is_one_set replaced.now }
{
    match replaced {
        Replaced::One(item) => is_set(item),
        Replaced::Many(_) => false,
        Replaced::Context(context) => match context.marked.as_slice() {
            [mark] => is_set(&mark.item),
            _ => false,
        },
    }
}

/// The rule that replaces this by glyphs.
pub fn by_glyphs(alloc: Global, replaced: Replaced, by: Sequence<Name>) -> Result<Rule, NoMemory>
    ensures { IfOk result (λ rule. rule ≡ by_glyphs replaced by) }
{
    match replaced {
        Replaced::One(item) => {
            let mut items = Sequence::new(alloc);
            items.push(item)?;
            Ok(Rule::Substitute { items, by })
        }
        Replaced::Many(items) => Ok(Rule::Substitute { items, by }),
        Replaced::Context(context) => Ok(Rule::ContextByGlyphs { context, by }),
    }
}

/// The rule that replaces this by a set.
#[tactic(auto, unfolding(crate::specs::Lines::by_set, crate::specs::Lines::is_one_set))]
pub fn by_set(place: usize, replaced: Replaced, by: GlyphSet) -> Result<Line, Stop>
    ensures { Goes result (by_set place replaced by) }
{
    if !is_one_set(&replaced) {
        return Err(Stop::Refused);
    }
    match replaced {
        Replaced::One(item) => match item {
            Item::Set(set) => Ok(ready(place, Rule::SubstituteSet { set, by })),
            Item::Glyph(_name) => Err(Stop::Refused),
        },
        Replaced::Many(_items) => Err(Stop::Refused),
        Replaced::Context(context) => Ok(ready(place, Rule::ContextBySet { context, by })),
    }
}

/// Whether a value may stand behind these items.
pub fn takes_value(items: &Items) -> bool
    ensures { result ≡ takes_value_by items.now items.now.last }
{
    match &items.last {
        Open::Nothing => false,
        Open::Item(_) => {
            is_pair(items.verb) && is_none_of(&items.marked) && items.before.len() < 2
        }
        Open::Mark(mark) => is_pos(items.verb) && mark.value.is_none(),
    }
}

/// Whether nothing follows the rule's verb yet.
#[tactic(auto, unfolding(crate::specs::Lines::is_behind_pos))]
pub fn follows_pos(items: &Items) -> bool
    ensures { result ≡ is_behind_pos items.now }
{
    let is_new = match &items.last {
        Open::Nothing => true,
        _ => false,
    };
    (is_pos(items.verb) || is_enumerated(items.verb))
        && (is_none_of(&items.contexts)
            && (is_none_of(&items.before) && (is_none_of(&items.marked) && is_new)))
}
