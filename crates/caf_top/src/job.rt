ghost use Rattle.std.specs.Prelude.{◌≡◌, is_some};
ghost use Rattle.std.specs.Option.{option_map};
ghost use Rattle.caf_words.specs.Requests.{request_of_order};
ghost use Rattle.caf_top.specs.Wanted.{wanted_in, wanted_of};

use caf_words::Order;

/// What is done with a program by itself.
#[derive(Clone, Copy)]
pub(crate) enum Work {
    /// It runs on one image, up to so many entries of the journal.
    Run { events: u32 },
    /// Its code is printed.
    List,
}

/// What is done with a file's program.
#[derive(Clone, Copy)]
pub(crate) enum Job<'a> {
    Program {
        file: &'a str,
        work: Work,
    },
    /// The source machine follows the choices of a trace, on 1 to 64 images.
    Check {
        file: &'a str,
        images: u32,
        trace: &'a str,
    },
}

/// The job of an order, if it is built.
pub(crate) fn job_of<'a>(order: &Order<'a>) -> Option<Job<'a>>
    ensures { option_map wanted_of result ≡ wanted_in (request_of_order order.now) }
{
    match *order {
        Order::Step {
            file,
            images: 1,
            events,
            trace: None,
            ..
        } => Some(Job::Program {
            file,
            work: Work::Run { events },
        }),
        Order::List { file } => Some(Job::Program {
            file,
            work: Work::List,
        }),
        Order::Check {
            file,
            images,
            trace,
        } if 1 <= images && images <= 64 => Some(Job::Check {
            file,
            images,
            trace,
        }),
        _ => None,
    }
}

/// Whether an order is built: a run on one image without a trace that is saved, a listing, or a check on 1 to 64 images.
pub fn is_built(order: &Order<'_>) -> bool
    ensures { result ≡ is_some (wanted_in (request_of_order order.now)) }
{
    job_of(order).is_some()
}
