ghost use Rattle.std.specs.Prelude.{◌≡◌, map};
ghost use Rattle.std.specs.Option.{option_map};
ghost use Rattle.caf_words.specs.Requests.{check_of, gen_of, list_of, of_command, replay_of, request_of, run_of, step_of, text_of};

use crate::number::{events_in, images_in, number_in, workers_in};
use crate::{Asked, Order};

fn run<'a>(words: &[&'a str], trace: Option<&'a str>) -> Option<Asked<'a>>
    ensures { option_map request_of result ≡ run_of (map (λ word. word.now) words.now) (text_of trace.entry) }
{
    let [file, images, workers, events] = words else {
        return None;
    };
    Some(Asked::Run {
        file,
        images: images_in(images)?,
        workers: workers_in(workers)?,
        events: events_in(events)?,
        trace,
    })
}

fn step<'a>(words: &[&'a str], trace: Option<&'a str>) -> Option<Asked<'a>>
    ensures { option_map request_of result ≡ step_of (map (λ word. word.now) words.now) (text_of trace.entry) }
{
    let [file, images, seed, events] = words else {
        return None;
    };
    Some(Asked::Serial(Order::Step {
        file,
        images: images_in(images)?,
        seed: number_in(seed)?,
        events: events_in(events)?,
        trace,
    }))
}

fn replay<'a>(words: &[&'a str], saved: Option<&'a str>) -> Option<Asked<'a>>
    ensures { option_map request_of result ≡ replay_of (map (λ word. word.now) words.now) (text_of saved.entry) }
{
    let ([file, images, trace], None) = (words, saved) else {
        return None;
    };
    let images = images_in(images)?;
    Some(Asked::Serial(Order::Replay {
        file,
        images,
        trace,
    }))
}

fn check<'a>(words: &[&'a str], saved: Option<&'a str>) -> Option<Asked<'a>>
    ensures { option_map request_of result ≡ check_of (map (λ word. word.now) words.now) (text_of saved.entry) }
{
    let ([file, images, trace], None) = (words, saved) else {
        return None;
    };
    let images = images_in(images)?;
    Some(Asked::Serial(Order::Check {
        file,
        images,
        trace,
    }))
}

fn list<'a>(words: &[&'a str], saved: Option<&'a str>) -> Option<Asked<'a>>
    ensures { option_map request_of result ≡ list_of (map (λ word. word.now) words.now) (text_of saved.entry) }
{
    let ([file], None) = (words, saved) else {
        return None;
    };
    Some(Asked::Serial(Order::List { file }))
}

fn gen_workload<'a>(words: &[&'a str], saved: Option<&'a str>) -> Option<Asked<'a>>
    ensures { option_map request_of result ≡ gen_of (map (λ word. word.now) words.now) (text_of saved.entry) }
{
    let ([number], None) = (words, saved) else {
        return None;
    };
    let number = number_in(number)?;
    Some(Asked::Serial(Order::Gen { number }))
}

/// What a command asks for with these words, and with this name behind `--trace`.
pub(crate) fn of_command<'a>(
    command: &str,
    words: &[&'a str],
    trace: Option<&'a str>,
) -> Option<Asked<'a>>
    ensures { option_map request_of result ≡ of_command command.now (map (λ word. word.now) words.now) (text_of trace.entry) }
{
    match command {
        "run" => run(words, trace),
        "step" => step(words, trace),
        "replay" => replay(words, trace),
        "check" => check(words, trace),
        "list" => list(words, trace),
        "gen" => gen_workload(words, trace),
        _ => None,
    }
}
