//! Operators at files of their own.
//!
//! **Each control has a thread, a pass and names of its own.** So operators wait for one another only as callers of the router do, and what one of them
//! names changes no name of another one. The names last from one opening of the files to the next.
//!
//! **An operator whose files end is waited for again**: a FIFO ends with whoever wrote to it. Nobody else waits for an answer that is not read.
ghost use Rattle.std.specs.Prelude.{◌≡◌};
ghost use Rattle.router_daemon.specs.Passes.{IsLegalPass};

use crate::folder::LinkFolder;
use crate::operating::Figures;
use crate::request_gate::{GatedService, RequestGate};
use crate::router_passes::RouterPass;
use crate::setting::VerifiedFilters;
use crate::shared::Shared;
use crate::signals::{Closing, Signals};
use crate::standard_input::InputPipe;
use crate::starting::take_part;
use crate::telling::{Event, OpenFault, shown_of};
use line_protocol::{Service, answer_lines_within};
use router_operator::{Configuration, ConfiguredOperator, INPUT_LIMIT, Looker, Naming, Operator};
use router_options::ControlFiles;
use slot_lock::Pass;
use std::alloc::{AllocError, Global};
use std::io::{self, Read, Write};
use std::marker::{Model, PhantomData};
use std::rt::Clock;
use std::sync::{Arc, Wait};
use std::thread::{self, Threads};
use std::time::Duration;

/// For how many milliseconds a control rests whose files could not be opened, or ended.
const PAUSE: u64 = 200;

/// For how many it rests where they ended well.
const BREATH: u64 = 5;

/// What all controls of a router have in common. A contract sees it as the size of the domain and the room for entries.
#[derive(Drop)]
pub(crate) struct Controls<J: Naming> {
    /// The number of nodes of the domain.
    size: u16,
    /// The most entries of the history.
    limit: u32,
    /// Where standard input is ended, if it can be.
    pipe: Option<Arc<InputPipe>>,
    of: PhantomData<J>,
}

impl<J: Naming> Model for Controls<J> {
    ghost use Rattle.std.specs.Prelude.{◌≡◌, ℕ};

    ghost Value = { ℕ × ℕ };

    ghost view = { λ c. (c.size, c.limit) };

    ghost invariant = { λ c. (c.size ≡ J.router.opening.size) × (c.limit ≡ J.router.limit) };
}

impl<J: Naming> Controls<J> {
    /// Those of a router of which operators are told this.
    pub(crate) fn new(figures: Figures, pipe: Option<Arc<InputPipe>>) -> Controls<J>
        requires size { figures.size ≡ J.router.opening.size }
        requires limit { figures.limit ≡ J.router.limit }
    {
        Controls {
            size: figures.size,
            limit: figures.limit,
            pipe,
            of: PhantomData,
        }
    }
}

/// An operator between two openings of their files: their pass, and the filters that they named.
#[derive(Drop)]
struct IdleOperator<J: Naming> {
    router_pass: RouterPass<J>,
    filters: VerifiedFilters,
}

/// Tells people that a file of operators was not opened, unless they were told.
fn tell_unopened<R: Wait + Clock, J: Naming, E: Write>(
    rt: &R,
    alloc: Global,
    shared: &Shared<J, E>,
    name: &str,
    why: &io::Error,
    is_reported: &mut bool,
) {
    if *is_reported {
        return;
    }
    *is_reported = true;
    if let Ok(shown) = shown_of(alloc, why) {
        let shown = shown.as_str();
        shared.tell(rt, alloc, Event::Uncontrolled(OpenFault { name, shown }));
    }
}

/// Opens both files of a control: first that which the operator's lines come from. To open a FIFO waits until its other end is opened.
fn open_files<R: Wait + Clock, I: Read + Drop, O: Write, D: LinkFolder<I, O>, J: Naming, E: Write>(
    rt: &R,
    alloc: Global,
    folder: &D,
    shared: &Shared<J, E>,
    files: &ControlFiles,
    is_reported: &mut bool,
) -> Option<(I, O)> {
    let (from, to) = (files.input.as_str(), files.output.as_str());
    let input = match folder.open_input(from) {
        Ok(input) => input,
        Err(why) => {
            tell_unopened(rt, alloc, shared, from, &why, is_reported);
            return None;
        }
    };
    match folder.open_output(to) {
        Ok(output) => {
            *is_reported = false;
            Some((input, output))
        }
        Err(why) => {
            tell_unopened(rt, alloc, shared, to, &why, is_reported);
            None
        }
    }
}

/// An operator of the router, with a pass and filters that have names.
fn operator_of<'a, R: Wait + Clock, J: Naming, E: Write>(
    rt: &'a R,
    shared: &'a Shared<J, E>,
    controls: &Controls<J>,
    idle: IdleOperator<J>,
) -> Operator<'a, R, Signals, J> {
    let IdleOperator {
        router_pass,
        filters,
    } = idle;
    Operator::new(
        rt,
        &shared.router,
        router_pass.pass(),
        &shared.signals,
        controls.size,
        controls.limit,
        shared.nodes.as_slice(),
        filters,
    )
}

/// Has a service answer lines until they end, or the router does. What breaks them off is no matter: the files are opened again.
fn answer_gated<R: Wait, I: Read, O: Write, S: Service>(
    rt: &R,
    alloc: Global,
    request_gate: &RequestGate,
    service: &mut S,
    input: &mut I,
    output: &mut O,
) {
    let mut gated = GatedService::new(rt, request_gate, service);
    let _ = answer_lines_within(alloc, INPUT_LIMIT, input, output, &mut gated);
}

/// Answers the lines of an operator who may change the router: whether they ended it, and what they are when their lines are over.
fn serve_changes<R: Wait + Clock, I: Read, O: Write, C: Configuration, J: Naming, E: Write>(
    rt: &R,
    alloc: Global,
    shared: &Shared<J, E>,
    configuration: &C,
    controls: &Controls<J>,
    idle: IdleOperator<J>,
    input: &mut I,
    output: &mut O,
) -> (bool, IdleOperator<J>) {
    let mut configured = ConfiguredOperator::new(
        operator_of(rt, shared, controls, idle),
        configuration,
    );
    let request_gate = &shared.signals.request_gate;
    answer_gated(rt, alloc, request_gate, &mut configured, input, output);
    let operator = configured.operator();
    let has_quit = operator.has_quit();
    let (pass, filters) = operator.parts();
    let router_pass = RouterPass::new(pass);
    (
        has_quit,
        IdleOperator {
            router_pass,
            filters,
        },
    )
}

/// Answers the lines of an operator who may look alone: what they are when their lines are over.
fn serve_looks<R: Wait + Clock, I: Read, O: Write, J: Naming, E: Write>(
    rt: &R,
    alloc: Global,
    shared: &Shared<J, E>,
    controls: &Controls<J>,
    idle: IdleOperator<J>,
    input: &mut I,
    output: &mut O,
) -> IdleOperator<J> {
    let mut looker = Looker::new(operator_of(rt, shared, controls, idle));
    let request_gate = &shared.signals.request_gate;
    answer_gated(rt, alloc, request_gate, &mut looker, input, output);
    let (pass, filters) = looker.parts();
    let router_pass = RouterPass::new(pass);
    IdleOperator {
        router_pass,
        filters,
    }
}

/// Ends the router, since an operator said so.
fn end_router<R: Wait, J: Naming, E: Write>(
    rt: &R,
    shared: &Shared<J, E>,
    pipe: &Option<Arc<InputPipe>>,
) {
    shared.signals.request_gate.quit(rt);
    if let Some(pipe) = pipe {
        pipe.close(rt);
    }
}

/// Serves an operator at files that are open, and closes these: first the one that their lines come from, so that whoever finds the other one closed can
/// open both again. What the operator is when their lines are over; nothing where they ended the router.
fn serve_files<
    R: Wait + Clock,
    I: Read + Drop,
    O: Write + Drop,
    C: Configuration,
    J: Naming,
    E: Write,
>(
    rt: &R,
    alloc: Global,
    shared: &Shared<J, E>,
    configuration: &C,
    controls: &Controls<J>,
    looks: bool,
    idle: IdleOperator<J>,
    mut input: I,
    mut output: O,
) -> Option<IdleOperator<J>> {
    let (has_quit, after) = if looks {
        let after = serve_looks(rt, alloc, shared, controls, idle, &mut input, &mut output);
        (false, after)
    } else {
        serve_changes(
            rt,
            alloc,
            shared,
            configuration,
            controls,
            idle,
            &mut input,
            &mut output,
        )
    };
    drop(input);
    drop(output);
    if has_quit {
        end_router(rt, shared, &controls.pipe);
        return None;
    }
    Some(after)
}

/// Serves an operator at files of their own, opening after opening, until they end the router (None), or somebody else does. A file that keeps what is
/// written to it is read once: its lines would be answered over and over.
fn control<
    R: Wait + Clock + Drop,
    I: Read + Drop,
    O: Write + Drop,
    D: LinkFolder<I, O> + Drop,
    C: Configuration + Drop,
    J: Naming,
    E: Write + Drop,
>(
    rt: R,
    alloc: Global,
    folder: Arc<D>,
    shared: Arc<Shared<J, E>>,
    configuration: Arc<C>,
    files: ControlFiles,
    controls: Arc<Controls<J>>,
    idle: IdleOperator<J>,
) -> Option<Closing> {
    let mut idle = idle;
    let mut is_reported = false;
    for _ in rt.forever() {
        let opened = open_files::<R, I, O, D, J, E>(
            &rt,
            alloc,
            &folder,
            &shared,
            &files,
            &mut is_reported,
        );
        let pause = match opened {
            Some((input, output)) => {
                let looks = files.looks;
                idle = serve_files::<R, I, O, C, J, E>(
                    &rt,
                    alloc,
                    &shared,
                    &configuration,
                    &controls,
                    looks,
                    idle,
                    input,
                    output,
                )?;
                if folder.is_kept(files.input.as_str()) {
                    return None;
                }
                BREATH
            }
            None => PAUSE,
        };
        if let Some(closing) = shared.signals.closing(&rt) {
            return Some(closing);
        }
        thread::sleep(&rt, Duration::from_millis(pause));
    }
    unreachable!()
}

/// Starts the thread of a control. Whether it was started.
fn start_control<
    R: Threads + Wait + Clock + Copy + Send + Drop + 'static,
    I: Read + Send + Drop + 'static,
    O: Write + Send + Drop + 'static,
    D: LinkFolder<I, O> + Send + Sync + Drop + 'static,
    C: Configuration + Send + Sync + Drop + 'static,
    J: Naming + Send + Sync + 'static,
    E: Write + Send + Drop + 'static,
>(
    rt: &R,
    alloc: Global,
    folder: &Arc<D>,
    shared: &Arc<Shared<J, E>>,
    configuration: &Arc<C>,
    files: ControlFiles,
    controls: Arc<Controls<J>>,
    idle: IdleOperator<J>,
) -> Result<bool, AllocError> {
    let handle = *rt;
    let folder = Arc::try_clone(folder)?;
    let shared = Arc::try_clone(shared)?;
    let configuration = Arc::try_clone(configuration)?;
    let started = thread::spawn(rt, move || {
        control::<R, I, O, D, C, J, E>(
            handle,
            alloc,
            folder,
            shared,
            configuration,
            files,
            controls,
            idle,
        )
    });
    Ok(started.is_ok())
}

/// Starts the threads of all controls, each with the filters of a plan. Where one is not started, people are told.
pub(crate) fn start_controls<
    R: Threads + Wait + Clock + Copy + Send + Drop + 'static,
    I: Read + Send + Drop + 'static,
    O: Write + Send + Drop + 'static,
    D: LinkFolder<I, O> + Send + Sync + Drop + 'static,
    C: Configuration + Send + Sync + Drop + 'static,
    J: Naming + Send + Sync + 'static,
    E: Write + Send + Drop + 'static,
>(
    rt: &R,
    alloc: Global,
    folder: &Arc<D>,
    shared: &Arc<Shared<J, E>>,
    configuration: &Arc<C>,
    pass: &mut Pass,
    files: Vec<ControlFiles>,
    filters: &VerifiedFilters,
    controls: Controls<J>,
) -> Result<(), AllocError>
    requires { IsLegalPass J.router pass.old }
    ensures { IsLegalPass J.router pass.new }
{
    let controls = Arc::new(alloc, controls)?;
    for files in files {
        let name = String::from_str(alloc, files.input.as_str())?;
        let idle = IdleOperator {
            router_pass: take_part(shared, pass, 1)?,
            filters: filters.clone()?,
        };
        let controls = Arc::try_clone(&controls)?;
        let is_started = start_control::<R, I, O, D, C, J, E>(
            rt,
            alloc,
            folder,
            shared,
            configuration,
            files,
            controls,
            idle,
        )?;
        if !is_started {
            shared.tell(rt, alloc, Event::NoControl(name.as_str()));
        }
    }
    Ok(())
}
