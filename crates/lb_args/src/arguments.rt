//! The arguments of a macro.
ghost use Rattle.std.specs.Prelude.{◌≡◌, ◌≤◌, ◌++◌, ◌∷◌, Bool, [], length, take, drop, OnOk, OnErr};
ghost use Rattle.lb_model.specs.Arguments.{arguments, each_argument, looks_arguments, looks_each, looks_plain_arguments, plain_arguments};
ghost use Rattle.lb_model.specs.Configs.{in_file, looks_in_file};
ghost use Rattle.lb_model.specs.Fed.{Reads};
ghost use Rattle.lb_model.specs.Readings.{looks_taken, taken};
ghost use Rattle.lb_model_grammar.specs.Arguments.{argument, parts_of};
ghost use Rattle.lb_args.specs.Further.{AtParameter, further, is_parameter};

use crate::delimited::read_delimited;
use crate::front::read_front;
use crate::optional::read_optional;
use crate::undelimited::read_undelimited;
use lb_base::{NoMemory, Stop, Tok, TokList};
use lb_macros::Arguments;
use lb_model::Feed;
use lb_values::{Pattern, Shared};
use std::alloc::Global;

fn is_parameter(tok: &Tok) -> bool
    ensures { result ≡ is_parameter tok.now }
{
    matches!(tok, Tok::Param(_))
}

// How many tokens stand before the next parameter of a pattern, or before its end.
fn before_parameter(toks: &[Tok]) -> usize
    ensures within { result ≤ length toks.now }
    ensures parts { parts_of toks.now ≡ (take result toks.now, (parts_of (drop result toks.now)).1) }
    ensures parameter { AtParameter (drop result toks.now) }
{
    'tokens: for index in 0..toks.len() {
        if is_parameter(&toks[index]) {
            return index;
        }
    }
    toks.len()
}

// One argument more.
fn add(alloc: Global, arguments: &mut Arguments, argument: TokList) -> Result<(), NoMemory>
    ensures ok { OnOk result (arguments.new ≡ arguments.old ++ argument ∷ []) }
    ensures err { OnErr result (arguments.new ≡ arguments.old) }
{
    arguments.push(Shared::new(alloc, argument)?)
}

// An argument before a delimiter, where there is one.
fn read_argument<F: Feed>(
    alloc: Global,
    feed: &mut F,
    long: bool,
    delimiter: &[Tok],
) -> Result<TokList, Stop>
    ensures reads { Reads F.Feed (taken in_file (argument long delimiter.now))
        (looks_taken in_file looks_in_file (argument long delimiter.now)) result feed.new feed.old }
{
    if delimiter.is_empty() {
        return read_undelimited(alloc, feed, long);
    }
    read_delimited(alloc, feed, long, delimiter)
}

// The arguments of parameters, each of which stands before its delimiter, behind those that are there already.
fn read_each<F: Feed>(
    alloc: Global,
    feed: &mut F,
    long: bool,
    parameters: &[Tok],
    so_far: Arguments,
) -> Result<Arguments, Stop>
    requires { AtParameter parameters.now }
    ensures reads { Reads F.Feed (further so_far (each_argument long (parts_of parameters.now).1))
        (looks_each long (parts_of parameters.now).1) result feed.new feed.old }
{
    let mut arguments = so_far;
    let mut rest = parameters;
    'parameters: while let Some((_, behind)) = rest.split_first() {
        let (delimiter, next) = behind.split_at(before_parameter(behind));
        match read_argument(alloc, feed, long, delimiter) {
            Err(stop) => return Err(stop),
            Ok(argument) => add(alloc, &mut arguments, argument)?,
        }
        rest = next;
    }
    Ok(arguments)
}

// All arguments but an optional one, behind those that are there already.
fn read_plain<F: Feed>(
    alloc: Global,
    feed: &mut F,
    pattern: &Pattern,
    so_far: Arguments,
) -> Result<Arguments, Stop>
    ensures reads { Reads F.Feed (further so_far (plain_arguments pattern.now)) (looks_plain_arguments pattern.now) result feed.new feed.old }
{
    let toks = pattern.tokens.as_slice();
    let (front, parameters) = toks.split_at(before_parameter(toks));
    match read_front(alloc, feed, front) {
        Err(stop) => Err(stop),
        Ok(_) => read_each(alloc, feed, pattern.long, parameters, so_far),
    }
}

/// The arguments of a macro, which has been taken: an optional one in brackets, what stands before the first parameter, and one argument for
/// each parameter (TeXbook, chapter 20; tex.web, part 25). The faults are those of the feed; `UseMismatch` where what stands before the first
/// parameter is not there, and at a closing brace in the place of an argument; `Runaway` where the text or the piece ends in an argument, and
/// at a `\par` where the macro is not long; and `DepthLimit` above a million tokens of one argument, and where a million are pending and one
/// is to be put back. The feed stands behind the last token that was taken.
pub fn match_arguments<F: Feed>(
    alloc: Global,
    feed: &mut F,
    pattern: &Pattern,
) -> Result<Arguments, Stop>
    ensures reads { Reads F.Feed (arguments pattern.now) (looks_arguments pattern.now) result feed.new feed.old }
{
    let mut arguments = Arguments::new(alloc);
    match &pattern.first {
        None => read_plain(alloc, feed, pattern, arguments),
        Some(default) => match read_optional(alloc, feed, pattern.long, default) {
            Err(stop) => Err(stop),
            Ok(argument) => {
                add(alloc, &mut arguments, argument)?;
                read_plain(alloc, feed, pattern, arguments)
            }
        },
    }
}
