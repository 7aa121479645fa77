// Laws of sessions over lines.
ghost use Rattle.edit_session.specs.LineLaws.{LinesMakeASession};
ghost use Rattle.edit_session.specs.Served.{NothingIsServed, ServesAnyWorkers};

use crate::laws::sessions_of_any_workers;

/// Lines that are answered one after another are a session over the requests that they are, their
/// texts are those of its replies, and on a shared board its calls are the lines' calls.
pub fn lines_make_a_session()
    ensures { LinesMakeASession }
{}

/// Where nothing was read, for want of memory, a session of no lines was served, whose one call is the
/// close.
pub fn nothing_is_served()
    ensures { NothingIsServed }
{}

/// How many workers there are makes no difference to what is served, where there are some.
pub fn any_workers_serve()
    ensures { ServesAnyWorkers }
{
    sessions_of_any_workers();
}
