// The job of the words.
ghost use Rattle.std.specs.Prelude.{◌≡◌, ◌∷◌, IfOk, map, true, string_bytes};
ghost use Rattle.dp_words.specs.Words.{HasLook, HasSizes, HasSomeStep, HasVersion, IsReadAs, all_hold, check_row};
ghost use Rattle.dp_words.specs.Words.{command_job, job_of, job_of_values, make_row, model_to_make, plan_row};
ghost use Rattle.dp_words.specs.Words.{print_row, read, row_job, show_row, sim_row, trial_row, value_row};
ghost use Rattle.dp_words.specs.Command.{merging_off, plain_words, values_of};

use crate::job::{
    CheckJob, Job, MakeJob, PlanJob, PrintJob, ShowJob, SimJob, TrialJob, ValueJob, WordFault,
};
use crate::line::{Setting, all_hold, fits, merging_off, order, order_holds, value_of};
use crate::name::Name;
use crate::parse::parsed;
use clap::ArgMatches;
use std::alloc::Global;

const HORIZON: Setting = Setting {
    name: "horizon",
    least: 1,
    most: 4_294_967_295,
    default: None,
};

const NODES: Setting = Setting {
    name: "nodes",
    least: 0,
    most: 4_294_967_295,
    default: Some(100_000),
};

const LOOK: Setting = Setting {
    name: "look",
    least: 1,
    most: 16,
    default: Some(1),
};

const CERT: Setting = Setting {
    name: "cert",
    least: 1,
    most: 2,
    default: Some(1),
};

const SEED: Setting = Setting {
    name: "seed",
    least: 0,
    most: 18_446_744_073_709_551_615,
    default: None,
};

const EPISODES: Setting = Setting {
    name: "episodes",
    least: 1,
    most: 10_000,
    default: Some(1),
};

const AGENTS: Setting = Setting {
    name: "agents",
    least: 1,
    most: 65_536,
    default: None,
};

const STATES: Setting = Setting {
    name: "states",
    least: 1,
    most: 65_536,
    default: None,
};

const ACTIONS: Setting = Setting {
    name: "actions",
    least: 1,
    most: 65_536,
    default: None,
};

const OBSERVATIONS: Setting = Setting {
    name: "observations",
    least: 1,
    most: 65_536,
    default: None,
};

// The options whose values are numbers, in the order of the table.
static SETTINGS: [Setting; 10] = [
    HORIZON,
    NODES,
    LOOK,
    CERT,
    SEED,
    EPISODES,
    AGENTS,
    STATES,
    ACTIONS,
    OBSERVATIONS,
];

// The options of `plan`.
static PLAN: [&str; 6] = ["horizon", "nodes", "look", "cert", "order", "no-merge"];

// Those that it requires.
static PLAN_REQUIRES: [&str; 1] = ["horizon"];

// The options of `sim`.
static SIM: [&str; 2] = ["seed", "episodes"];

// Those that it requires.
static SIM_REQUIRES: [&str; 1] = ["seed"];

// The options of `make`, each of which it requires.
static MAKE: [&str; 5] = ["seed", "agents", "states", "actions", "observations"];

// The options of `trial`.
static TRIAL: [&str; 8] = [
    "seed",
    "agents",
    "states",
    "actions",
    "observations",
    "horizon",
    "nodes",
    "look",
];

// Those that it requires.
static TRIAL_REQUIRES: [&str; 6] = [
    "seed",
    "agents",
    "states",
    "actions",
    "observations",
    "horizon",
];

// The options of a command that has none.
static NONE: [&str; 0] = [];

// Whether the values are allowed.
fn are_allowed(given: &ArgMatches<'_>) -> bool
    ensures { result ≡ all_hold (values_of given.now) }
{
    all_hold(given, SETTINGS.as_slice()) && order_holds(given)
}

// `plan MODEL`
fn plan(alloc: Global, given: &ArgMatches<'_>, files: &[&str]) -> Result<Job, WordFault>
    requires { all_hold (values_of given.now) ≡ true }
    ensures { IsReadAs (row_job (values_of given.now) (merging_off given.now) (map (λ f. f.now) files.now)
        plan_row) result }
{
    let [model] = files else {
        return Err(WordFault::Usage);
    };
    if !fits(given, PLAN.as_slice(), PLAN_REQUIRES.as_slice()) {
        return Err(WordFault::Usage);
    }
    Ok(Job::Plan(PlanJob {
        model: Name::of(alloc, model)?,
        version: value_of(given, CERT) as u32,
        horizon: value_of(given, HORIZON) as u32,
        nodes: value_of(given, NODES) as u32,
        look: value_of(given, LOOK) as u32,
        merge: !merging_off(given),
        order: order(given),
    }))
}

// `value MODEL POLICY`
fn value(alloc: Global, given: &ArgMatches<'_>, files: &[&str]) -> Result<Job, WordFault>
    ensures { IsReadAs (row_job (values_of given.now) (merging_off given.now) (map (λ f. f.now) files.now)
        value_row) result }
{
    let [model, policy] = files else {
        return Err(WordFault::Usage);
    };
    if !fits(given, NONE.as_slice(), NONE.as_slice()) {
        return Err(WordFault::Usage);
    }
    Ok(Job::Value(ValueJob {
        model: Name::of(alloc, model)?,
        policy: Name::of(alloc, policy)?,
    }))
}

// `check MODEL CERT`
fn check(alloc: Global, given: &ArgMatches<'_>, files: &[&str]) -> Result<Job, WordFault>
    ensures { IsReadAs (row_job (values_of given.now) (merging_off given.now) (map (λ f. f.now) files.now)
        check_row) result }
{
    let [model, cert] = files else {
        return Err(WordFault::Usage);
    };
    if !fits(given, NONE.as_slice(), NONE.as_slice()) {
        return Err(WordFault::Usage);
    }
    Ok(Job::Check(CheckJob {
        model: Name::of(alloc, model)?,
        cert: Name::of(alloc, cert)?,
    }))
}

// `show MODEL CERT`
fn show(alloc: Global, given: &ArgMatches<'_>, files: &[&str]) -> Result<Job, WordFault>
    ensures { IsReadAs (row_job (values_of given.now) (merging_off given.now) (map (λ f. f.now) files.now)
        show_row) result }
{
    let [model, cert] = files else {
        return Err(WordFault::Usage);
    };
    if !fits(given, NONE.as_slice(), NONE.as_slice()) {
        return Err(WordFault::Usage);
    }
    Ok(Job::Show(ShowJob {
        model: Name::of(alloc, model)?,
        cert: Name::of(alloc, cert)?,
    }))
}

// `sim MODEL CERT`
fn sim(alloc: Global, given: &ArgMatches<'_>, files: &[&str]) -> Result<Job, WordFault>
    requires { all_hold (values_of given.now) ≡ true }
    ensures { IsReadAs (row_job (values_of given.now) (merging_off given.now) (map (λ f. f.now) files.now)
        sim_row) result }
{
    let [model, cert] = files else {
        return Err(WordFault::Usage);
    };
    if !fits(given, SIM.as_slice(), SIM_REQUIRES.as_slice()) {
        return Err(WordFault::Usage);
    }
    Ok(Job::Sim(SimJob {
        model: Name::of(alloc, model)?,
        cert: Name::of(alloc, cert)?,
        seed: value_of(given, SEED),
        episodes: value_of(given, EPISODES) as u32,
    }))
}

// The model that the options ask for.
fn model_to_make(given: &ArgMatches<'_>) -> MakeJob
    requires { all_hold (values_of given.now) ≡ true }
    ensures { result ≡ model_to_make (read (values_of given.now) (merging_off given.now)) }
{
    MakeJob {
        seed: value_of(given, SEED),
        agents: value_of(given, AGENTS) as u32,
        states: value_of(given, STATES) as u32,
        actions: value_of(given, ACTIONS) as u32,
        observations: value_of(given, OBSERVATIONS) as u32,
    }
}

// `make`
fn make(given: &ArgMatches<'_>, files: &[&str]) -> Result<Job, WordFault>
    requires { all_hold (values_of given.now) ≡ true }
    ensures { IsReadAs (row_job (values_of given.now) (merging_off given.now) (map (λ f. f.now) files.now)
        make_row) result }
{
    if !files.is_empty() || !fits(given, MAKE.as_slice(), MAKE.as_slice()) {
        return Err(WordFault::Usage);
    }
    Ok(Job::Make(model_to_make(given)))
}

// `print MODEL`
fn print(alloc: Global, given: &ArgMatches<'_>, files: &[&str]) -> Result<Job, WordFault>
    ensures { IsReadAs (row_job (values_of given.now) (merging_off given.now) (map (λ f. f.now) files.now)
        print_row) result }
{
    let [model] = files else {
        return Err(WordFault::Usage);
    };
    if !fits(given, NONE.as_slice(), NONE.as_slice()) {
        return Err(WordFault::Usage);
    }
    Ok(Job::Print(PrintJob {
        model: Name::of(alloc, model)?,
    }))
}

// `trial`
fn trial(given: &ArgMatches<'_>, files: &[&str]) -> Result<Job, WordFault>
    requires { all_hold (values_of given.now) ≡ true }
    ensures { IsReadAs (row_job (values_of given.now) (merging_off given.now) (map (λ f. f.now) files.now)
        trial_row) result }
{
    if !files.is_empty() || !fits(given, TRIAL.as_slice(), TRIAL_REQUIRES.as_slice()) {
        return Err(WordFault::Usage);
    }
    Ok(Job::Trial(TrialJob {
        made: model_to_make(given),
        horizon: value_of(given, HORIZON) as u32,
        nodes: value_of(given, NODES) as u32,
        look: value_of(given, LOOK) as u32,
    }))
}

// The job of a command.
fn command_job(
    alloc: Global,
    given: &ArgMatches<'_>,
    command: &str,
    files: &[&str],
) -> Result<Job, WordFault>
    requires { all_hold (values_of given.now) ≡ true }
    ensures { IsReadAs (command_job (values_of given.now) (merging_off given.now)
        (command.now ∷ map (λ f. f.now) files.now)) result }
{
    match command {
        "plan" => plan(alloc, given, files),
        "value" => value(alloc, given, files),
        "check" => check(alloc, given, files),
        "show" => show(alloc, given, files),
        "sim" => sim(alloc, given, files),
        "make" => make(given, files),
        "print" => print(alloc, given, files),
        "trial" => trial(given, files),
        _ => Err(WordFault::Usage),
    }
}

// The job of the matches.
fn matches_job(alloc: Global, given: &ArgMatches<'_>) -> Result<Job, WordFault>
    ensures { IsReadAs (job_of_values (values_of given.now) (merging_off given.now) (plain_words given.now)) result }
{
    if !are_allowed(given) {
        return Err(WordFault::Usage);
    }
    let Some(plain) = given.get_strs("words") else {
        return Err(WordFault::Usage);
    };
    let [command, files @ ..] = plain else {
        return Err(WordFault::Usage);
    };
    command_job(alloc, given, command, files)
}

/// The job that the words ask for: those after the program's name. An option begins with a dash,
/// stands anywhere before a word `--`, and takes for its value what follows its `=`, or else the
/// next word where that does not begin with a dash. The first of the other words is the command,
/// and the rest are its files. `Usage` comes exactly where the words ask for no job: where the
/// command is unknown, its files are not as many as it takes, an option is unknown, is not the
/// command's, is given twice or has no value in its range, or one that it requires is missing.
///
/// The commands are `plan MODEL`, `value MODEL POLICY`, `check MODEL CERT`, `show MODEL CERT`, `sim MODEL CERT`,
/// `print MODEL`, `make` and `trial`. A plan requires `--horizon`, from 1 to 4,294,967,295, and may have `--nodes`,
/// from 0 to 4,294,967,295 (by default 100,000), `--look`, from 1 to 16 (1), `--cert`, 1 or 2 (1), `--order`,
/// `first`, `heavy` or `spread` (`first`), and `--no-merge`. A simulation requires `--seed`, from 0 to
/// 2^64 - 1, and may have `--episodes`, from 1 to 10,000 (1). `make` and `trial` require `--seed`, and `--agents`,
/// `--states`, `--actions` and `--observations`, each from 1 to 65,536; `trial` requires `--horizon` besides, and may
/// have `--nodes` and `--look`, as a plan. Numbers are in digits that do not begin with 0.
pub fn read_words(alloc: Global, words: &[String]) -> Result<Job, WordFault>
    ensures read { IsReadAs (job_of (map string_bytes words.now)) result }
    ensures some_step { IfOk result HasSomeStep }
    ensures look { IfOk result HasLook }
    ensures version { IfOk result HasVersion }
    ensures sizes { IfOk result HasSizes }
{
    let given = parsed(alloc, words)?;
    matches_job(alloc, &given)
}
