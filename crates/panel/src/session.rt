// What the panel holds, and how it answers a command.
ghost use Rattle.panel.specs.Replies.{AtCode, AtDraft, AtStage, Answered, Chosen, Kept, LineAnswered, Opened};

use crate::replies::{Answer, Reply, hear, send};
use code::{Code, Draft};
use field::{Field, Four, Sixteen, Three, Two};
use notation::command::{Command, Order, read_command};
use refusal::Refusal;

// A draft, and once it is sealed its code.
#[derive(Drop)]
pub(crate) enum Stage<F> {
    Open(Draft<F>),
    Sealed(Code<F>),
}

// Nothing, until the field and the length are known. That is a state like the other four: an `Option`
// around them would only nest the `match` on them. The field is a type, so each has its own case.
#[derive(Drop)]
pub(crate) enum Panel {
    Fresh,
    Two(Stage<Two>),
    Three(Stage<Three>),
    Four(Stage<Four>),
    Sixteen(Stage<Sixteen>),
}

fn at_draft<F: Field>(mut draft: Draft<F>, command: &Command) -> (Stage<F>, Answer)
    ensures { AtDraft F.Field.ops draft command.now result.0 result.1 }
{
    match command {
        Command::Row(word) => {
            let rows = draft.push_row(word.symbols());
            (Stage::Open(draft), Some(rows.map(Reply::Number)))
        }
        Command::Back => {
            let rows = draft.pop_row();
            (Stage::Open(draft), Some(rows.map(Reply::Number)))
        }
        Command::Seal => {
            let code = draft.seal();
            let dimension = code.dimension();
            (Stage::Sealed(code), Some(Ok(Reply::Number(dimension))))
        }
        _ => (Stage::Open(draft), None),
    }
}

fn at_code<F: Field>(code: &mut Code<F>, command: &Command, work: &mut [u32]) -> Answer
    ensures { AtCode F.Field.ops code.old command.now work.old code.new result work.new }
{
    match command {
        Command::Send(word) => Some(send(code, word.symbols())),
        Command::Hear(word) => Some(hear(code, word.symbols(), work)),
        Command::Distance => Some(code.distance(work).map(Reply::Distance)),
        Command::Noise => Some(code.noise_figure().map(Reply::Figure)),
        _ => None,
    }
}

// Answers a command at a draft or a code, with work memory. One that is not for it changes nothing.
fn at_stage<F: Field>(stage: Stage<F>, command: &Command, work: &mut [u32]) -> (Stage<F>, Answer)
    ensures { AtStage F.Field.ops stage command.now work.old result.0 result.1 work.new }
{
    match stage {
        Stage::Open(draft) => at_draft(draft, command),
        Stage::Sealed(mut code) => {
            let answer = at_code(&mut code, command, work);
            (Stage::Sealed(code), answer)
        }
    }
}

// The same at the stage of the panel's field, where `hold` makes a panel of what is left.
fn answer_at<F: Field, H: FnOnce(Stage<F>) -> Panel>(
    hold: H,
    stage: Stage<F>,
    command: &Command,
    work: &mut [u32],
) -> (Panel, Answer)
    requires { H.IsAlwaysCallable hold }
    ensures { Kept F.Field.ops (H.post hold) stage command.now work.old result.0 result.1 work.new }
{
    let (stage, answer) = at_stage(stage, command, work);
    (hold(stage), answer)
}

// A draft of the length wanted, or why there is none.
fn open<F: Field>(length: usize) -> Result<Stage<F>, Refusal>
    ensures { Opened F.Field.ops length result }
{
    let mut draft = Draft::new();
    draft.set_length(length)?;
    Ok(Stage::Open(draft))
}

// A panel that holds such a draft, over the field of this order.
#[tactic(auto, using(crate::proofs::Opening::opens))]
fn choose(order: Order, length: usize) -> Result<Panel, Refusal>
    ensures { Chosen order length result }
{
    match order {
        Order::Two => open(length).map(Panel::Two),
        Order::Three => open(length).map(Panel::Three),
        Order::Four => open(length).map(Panel::Four),
        Order::Sixteen => open(length).map(Panel::Sixteen),
    }
}

// Answers a command, with work memory.
pub(crate) fn answer(panel: Panel, command: &Command, work: &mut [u32]) -> (Panel, Answer)
    ensures { Answered panel command.now work.old result.0 result.1 work.new }
{
    match panel {
        Panel::Fresh => match command {
            Command::Kind { order, length } => match choose(*order, *length) {
                Ok(panel) => (panel, Some(Ok(Reply::Done))),
                Err(refusal) => (Panel::Fresh, Some(Err(refusal))),
            },
            _ => (Panel::Fresh, None),
        },
        Panel::Two(stage) => answer_at(Panel::Two, stage, command, work),
        Panel::Three(stage) => answer_at(Panel::Three, stage, command, work),
        Panel::Four(stage) => answer_at(Panel::Four, stage, command, work),
        Panel::Sixteen(stage) => answer_at(Panel::Sixteen, stage, command, work),
    }
}

// Answers the command that a line says. A line that says none changes nothing.
pub(crate) fn answer_line(panel: Panel, line: &[u8], work: &mut [u32]) -> (Panel, Answer)
    ensures { LineAnswered panel line.now work.old result.0 result.1 work.new }
{
    match read_command(line) {
        Some(command) => answer(panel, &command, work),
        None => (panel, None),
    }
}
