//! Commands, one after the other, and their answers.

ghost use Rattle.std.specs.Prelude.{◌≡◌, ◌≢◌, ℕ, ◌<◌, Bool, Option, List, [], true, false, length};
ghost use Rattle.std.specs.Prelude.{◌⊎◌, Err, IfErr, IfNone, IfOk, IfSome, Ok, OnOk};
ghost use Rattle.std.specs.Io.KnownBytes.{Appends, Consumes, Keeps};
ghost use Rattle.ball_model.specs.Input.{Network};
ghost use Rattle.ball_model.specs.Job.{IsJob, job_of};
ghost use Rattle.ball_model.specs.Held.{start_holding};
ghost use Rattle.ball_model.specs.RunText.{Settings};
ghost use Rattle.ball_model.specs.Streams.{RisesByOne};
ghost use Rattle.ball_model.specs.WorldText.{refusal_line};
ghost use Rattle.node.specs.NodeText.{body_length, sent_text};
ghost use Rattle.job.specs.Job.{settings_of};
ghost use Rattle.job.specs.Input.{IsJobRead};
ghost use Rattle.node.specs.NoNode.{HasNoNode, IsNoNode, IsNoStart};
ghost use Rattle.node.specs.Serving.{IsNoRequest, IsOfMachine, ReadsCommand, ReadsRequest};
ghost use Rattle.node.specs.Serving.{ServesRest};
ghost use Rattle.node.specs.Serving.{ServesNode, ServesNone, ServesOne, Steps, StopsServing};
ghost use Rattle.node.specs.Serving.{StopsNode, StopsWanting, WantsNode};
ghost use Rattle.node.specs.declared.error.ServeError.{ServeError as Fault};
ghost use Rattle.job.specs.Stream.{FailsAs};
ghost use Rattle.node.specs.Stream.{CutsBody, NoLine, ReadsBody};
ghost use Rattle.node.specs.declared.command.Command.TheVariants as order;
ghost use Rattle.node.specs.Turns.{Holds, reply_text};

use crate::answers::{put_kept, put_reply, put_sent};
use crate::command::{Command, command_of, length_of};
use crate::error::{ServeError, ServeNodeError};
use crate::input::{Body, Line, read_body, read_line};
use crate::limits::is_within;
use crate::own::tell_own;
use crate::session::{Reply, Session};
use crate::watched::show_close;
use ball_model::world::WorldError;
use ball_model::{CountedRead, CountedWrite, NodeId, Plan};
use batches::Batch;
use checkpoint::{checkpoint_length, write_checkpoint};
use edgelist::{Graph, Part};
use job::{InputError, JobInput, Watch, part_of, read_job};
use replica::{Replica, Shown};
use report::totals_text;
use std::alloc::Global;
use std::hash::RandomState;
use world::answer::put_refusal;
use world::tell::{TellError, tell_replica, write_lines};

// Writes the line of what a node says.
fn tell<W: CountedWrite>(reply: Reply, line: &mut Vec<u8>, writer: &mut W) -> Result<(), TellError>
    ensures done { OnOk result (Appends (W.contents writer.old) (W.contents writer.new)
        (reply_text reply)) }
    ensures write { FailsAs W.failed_calls writer.old writer.new result (Err TellError.Write) }
{
    line.clear();
    put_reply(line, reply)?;
    write_lines(writer, line)
}

// Writes a batch.
fn tell_batch<W: CountedWrite>(
    alloc: Global,
    batch: &Batch,
    line: &mut Vec<u8>,
    writer: &mut W,
) -> Result<(), TellError>
    ensures done { OnOk result (Appends (W.contents writer.old) (W.contents writer.new)
        (sent_text batch.now)) }
    ensures write { FailsAs W.failed_calls writer.old writer.new result (Err TellError.Write) }
{
    line.clear();
    put_sent(line, batch)?;
    let bytes = batch.encode(alloc)?;
    write_lines(writer, line)?;
    write_lines(writer, &bytes)
}

// Writes that there is no such partition to be sent anything.
fn tell_no_target<W: CountedWrite>(line: &mut Vec<u8>, writer: &mut W) -> Result<(), TellError>
    ensures done { OnOk result (Appends (W.contents writer.old) (W.contents writer.new)
        (refusal_line WorldError.NoTarget)) }
    ensures write { FailsAs W.failed_calls writer.old writer.new result (Err TellError.Write) }
{
    line.clear();
    put_refusal(line, WorldError::NoTarget)?;
    write_lines(writer, line)
}

// A node sends another partition the batch of its superstep, if there is that partition.
fn answer_send<W: CountedWrite>(
    alloc: Global,
    replica: &Replica,
    target: u16,
    line: &mut Vec<u8>,
    writer: &mut W,
) -> Result<(), TellError>
    ensures done { (network : Network) (body : List ℕ) → OnOk result (Steps network
        (order.Send target) body replica.now replica.now
        (W.contents writer.old) (W.contents writer.new)) }
    ensures write { FailsAs W.failed_calls writer.old writer.new result (Err TellError.Write) }
{
    if replica.plan().parts() <= target {
        return tell_no_target(line, writer);
    }
    if target == replica.partition() {
        return tell_no_target(line, writer);
    }
    let batch = replica.out(alloc, target)?;
    tell_batch(alloc, &batch, line, writer)
}

// A node takes the batch that bytes spell.
fn answer_deliver<W: CountedWrite>(
    alloc: Global,
    session: &mut Session,
    body: &[u8],
    line: &mut Vec<u8>,
    writer: &mut W,
) -> Result<(), TellError>
    ensures step { (network : Network) (n : ℕ) → OnOk result (Steps network
        (order.Deliver n) body.now session.old session.new
        (W.contents writer.old) (W.contents writer.new)) }
    ensures part { session.new.part ≡ session.old.part }
    ensures write { FailsAs W.failed_calls writer.old writer.new result (Err TellError.Write) }
{
    let reply = session.deliver(alloc, body)?;
    tell(reply, line, writer)
}

// A node closes its superstep. A watch is called if it went on.
fn answer_close<W: CountedWrite, V: Watch>(
    session: &mut Session,
    watch: &V,
    line: &mut Vec<u8>,
    writer: &mut W,
) -> Result<(), TellError>
    ensures step { (network : Network) (body : List ℕ) → OnOk result (Steps network
        order.Close body session.old session.new
        (W.contents writer.old) (W.contents writer.new)) }
    ensures part { session.new.part ≡ session.old.part }
    ensures write { FailsAs W.failed_calls writer.old writer.new result (Err TellError.Write) }
{
    let answer = session.close();
    show_close(session.replica(), answer, watch);
    tell(Reply::Answered(answer), line, writer)
}

// A node gives its checkpoint.
fn answer_keep<W: CountedWrite>(
    replica: &Replica,
    line: &mut Vec<u8>,
    writer: &mut W,
) -> Result<(), TellError>
    ensures done { (network : Network) (body : List ℕ) → OnOk result (Steps network
        order.Keep body replica.now replica.now
        (W.contents writer.old) (W.contents writer.new)) }
    ensures write { FailsAs W.failed_calls writer.old writer.new result (Err TellError.Write) }
{
    replica.limits();
    line.clear();
    put_kept(line, replica.superstep(), checkpoint_length(replica))?;
    write_lines(writer, line)?;
    match write_checkpoint(replica, writer) {
        Ok(()) => Ok(()),
        Err(_) => Err(TellError::Write),
    }
}

// A node goes back to the checkpoint that bytes are, or to the start.
fn answer_restart<W: CountedWrite>(
    alloc: Global,
    session: &mut Session,
    body: &[u8],
    line: &mut Vec<u8>,
    writer: &mut W,
) -> Result<(), TellError>
    ensures step { (network : Network) (n : ℕ) → OnOk result (Steps network
        (order.Restart n) body.now session.old session.new
        (W.contents writer.old) (W.contents writer.new)) }
    ensures part { session.new.part ≡ session.old.part }
    ensures write { FailsAs W.failed_calls writer.old writer.new result (Err TellError.Write) }
{
    let reply = session.restart(alloc, body)?;
    tell(reply, line, writer)
}

// A node takes over what the checkpoint has that bytes are.
fn answer_recover<W: CountedWrite>(
    alloc: Global,
    session: &mut Session,
    body: &[u8],
    line: &mut Vec<u8>,
    writer: &mut W,
) -> Result<(), TellError>
    ensures step { (network : Network) (n : ℕ) → OnOk result (Steps network
        (order.Recover n) body.now session.old session.new
        (W.contents writer.old) (W.contents writer.new)) }
    ensures part { session.new.part ≡ session.old.part }
    ensures write { FailsAs W.failed_calls writer.old writer.new result (Err TellError.Write) }
{
    let reply = session.recover(alloc, body)?;
    tell(reply, line, writer)
}

// A node writes the sums of its estimates.
fn answer_totals<W: CountedWrite>(
    alloc: Global,
    replica: &Replica,
    writer: &mut W,
) -> Result<(), TellError>
    ensures done { (network : Network) (body : List ℕ) → OnOk result (Steps network
        order.Totals body replica.now replica.now
        (W.contents writer.old) (W.contents writer.new)) }
    ensures write { FailsAs W.failed_calls writer.old writer.new result (Err TellError.Write) }
{
    let text = totals_text(alloc, replica.sums())?;
    write_lines(writer, &text)
}

// Reads the line of a command. None: the input is at its end.
fn read_command<R: CountedRead>(
    part: &Part,
    reader: &mut R,
    line: &mut Vec<u8>,
    number: u64,
) -> Result<Option<Command>, ServeError>
    requires { line.old.items ≡ [] }
    ensures some { IfOk result (λ o. IfSome o (ReadsCommand part.now
        (R.remaining reader.old) (R.remaining reader.new) line.new.items)) }
    ensures none { IfOk result (λ o. IfNone o
        (NoLine (R.remaining reader.old) (R.remaining reader.new))) }
    ensures read { FailsAs R.failed_calls reader.old reader.new result (Err ServeError.Read) }
    ensures unwritten { result ≢ Err ServeError.Write }
    ensures stopped { IfErr result (λ e. IsNoRequest part.now number e
        (R.remaining reader.old) (R.remaining reader.new)) }
{
    match read_line(reader, line) {
        Line::Whole => {}
        Line::None => return Ok(None),
        Line::Cut => return Err(ServeError::Cut { number }),
        Line::Long => return Err(ServeError::Command { number }),
        Line::Memory => return Err(ServeError::Memory),
        Line::Failed => return Err(ServeError::Read),
    }
    let Some(command) = command_of(line) else {
        return Err(ServeError::Command { number });
    };
    if !is_within(part, command) {
        return Err(ServeError::Length { number });
    }
    Ok(Some(command))
}

// Reads what follows the line of a command.
fn read_rest<R: CountedRead>(
    reader: &mut R,
    command: Command,
    body: &mut Vec<u8>,
    number: u64,
) -> Result<(), ServeError>
    requires { body.old.items ≡ [] }
    ensures consumed { OnOk result (
        Consumes (R.remaining reader.old) (R.remaining reader.new) body.new.items) }
    ensures length { OnOk result (length body.new.items ≡ body_length command) }
    ensures read { FailsAs R.failed_calls reader.old reader.new result (Err ServeError.Read) }
    ensures unwritten { result ≢ Err ServeError.Write }
    ensures cut { result ≡ Err (ServeError.Cut number) → CutsBody (body_length command)
        (R.remaining reader.old) (R.remaining reader.new) }
    ensures memory { result ≡ Err ServeError.Memory → ReadsBody (body_length command)
        (R.remaining reader.old) (R.remaining reader.new) }
    ensures kind { IfErr result (λ e. (e ≡ ServeError.Cut number) ⊎ IsOfMachine e) }
{
    match read_body(reader, length_of(command), body) {
        Body::Whole => Ok(()),
        Body::Cut => Err(ServeError::Cut { number }),
        Body::Memory => Err(ServeError::Memory),
        Body::Failed => Err(ServeError::Read),
    }
}

// Reads a request. None: the input is at its end.
fn read_request<R: CountedRead>(
    part: &Part,
    reader: &mut R,
    line: &mut Vec<u8>,
    body: &mut Vec<u8>,
    number: u64,
) -> Result<Option<Command>, ServeError>
    requires line { line.old.items ≡ [] }
    requires body { body.old.items ≡ [] }
    ensures some { IfOk result (λ o. IfSome o (λ c. ReadsRequest part.now
        (R.remaining reader.old) (R.remaining reader.new) line.new.items c body.new.items)) }
    ensures none { IfOk result (λ o. IfNone o
        (NoLine (R.remaining reader.old) (R.remaining reader.new))) }
    ensures read { FailsAs R.failed_calls reader.old reader.new result (Err ServeError.Read) }
    ensures unwritten { result ≢ Err ServeError.Write }
    ensures stopped { IfErr result (λ e. IsNoRequest part.now number e
        (R.remaining reader.old) (R.remaining reader.new)) }
{
    let Some(command) = read_command(part, reader, line, number)? else {
        return Ok(None);
    };
    read_rest(reader, command, body, number)?;
    Ok(Some(command))
}

// Passes on what the writer holds back.
fn flush<W: CountedWrite>(writer: &mut W) -> Result<(), TellError>
    ensures done { Keeps (W.contents writer.old) (W.contents writer.new) }
    ensures write { FailsAs W.failed_calls writer.old writer.new result (Err TellError.Write) }
{
    if writer.try_flush() {
        Ok(())
    } else {
        Err(TellError::Write)
    }
}

// A node of a partition of a job, at its start.
fn start(alloc: Global, graph: &Graph, plan: &Plan, part: u16) -> Result<Session, ServeNodeError>
    requires { IsJob (job_of graph.now.graph plan.now) }
    ensures part { IfOk result (λ _. part < plan.now.parts) }
    ensures start { IfOk result (Holds (job_of graph.now.graph plan.now) part
        (start_holding plan.now part)) }
    ensures vertices { IfOk result (λ s. s.part.plan.vertices ≡ graph.now.graph.vertices) }
    ensures refused { IfErr result (IsNoStart plan.now part) }
{
    if plan.parts() <= part {
        return Err(ServeNodeError::Part);
    }
    let part = part_of(alloc, graph, plan, part)?;
    Ok(Session::start(alloc, part)?)
}

// What a node is asked: a command, and the bytes that follow its line.
#[derive(Drop)]
struct Request<'a> {
    command: Command,
    body: &'a [u8],
}

// What the commands of a node are answered with: the memory that is taken, the network, and a watch.
#[derive(Drop)]
struct Server<'a, V> {
    alloc: Global,
    graph: &'a Graph,
    watch: &'a V,
}

impl<'a, V: Watch> Server<'a, V> {
    // A node does what a request says, and answers it.
    fn answer<W: CountedWrite>(
        &self,
        session: &mut Session,
        request: &Request,
        line: &mut Vec<u8>,
        writer: &mut W,
    ) -> Result<(), TellError>
        requires { session.old.part.plan.vertices ≡ self.now.graph.now.graph.vertices }
        ensures step { OnOk result (Steps self.now.graph.now request.now.command
            request.now.body.now session.old session.new
            (W.contents writer.old) (W.contents writer.new)) }
        ensures part { session.new.part ≡ session.old.part }
        ensures write { FailsAs W.failed_calls writer.old writer.new result (Err TellError.Write) }
    {
        let (alloc, body) = (self.alloc, request.body);
        let replica = session.replica();
        match request.command {
            Command::Send { target } => answer_send(alloc, replica, target, line, writer),
            Command::Deliver { .. } => answer_deliver(alloc, session, body, line, writer),
            Command::Close => answer_close(session, self.watch, line, writer),
            Command::Keep => answer_keep(replica, line, writer),
            Command::Restart { .. } => answer_restart(alloc, session, body, line, writer),
            Command::Recover { .. } => answer_recover(alloc, session, body, line, writer),
            Command::Show => {
                let part = replica.partition();
                tell_replica(NodeId { part, replica: 0 }, replica, line, writer)
            }
            Command::Totals => answer_totals(alloc, replica, writer),
            Command::Figures => tell_own(alloc, self.graph, replica, writer),
        }
    }

    // Reads a request, does what it says and answers it. False: there was none.
    fn serve_one<R: CountedRead, W: CountedWrite>(
        &self,
        session: &mut Session,
        reader: &mut R,
        writer: &mut W,
        number: u64,
    ) -> Result<bool, ServeError>
        requires { session.old.part.plan.vertices ≡ self.now.graph.now.graph.vertices }
        ensures served { result ≡ Ok true → ServesOne self.now.graph.now (R.remaining reader.old)
            (R.remaining reader.new) session.old session.new
            (W.contents writer.old) (W.contents writer.new) }
        ensures ended { result ≡ Ok false → ServesNone (R.remaining reader.old)
            (R.remaining reader.new) session.old session.new
            (W.contents writer.old) (W.contents writer.new) }
        ensures part { session.new.part ≡ session.old.part }
        ensures stopped { IfErr result (λ e. IsNoRequest session.old.part number e
            (R.remaining reader.old) (R.remaining reader.new)) }
        ensures kept { IfErr result (λ e. (IsOfMachine e → ⊥) →
            Keeps (W.contents writer.old) (W.contents writer.new)) }
        ensures same { IfErr result (λ e. (IsOfMachine e → ⊥) → session.new ≡ session.old) }
        ensures read { FailsAs R.failed_calls reader.old reader.new result (Err ServeError.Read) }
        ensures write { FailsAs W.failed_calls writer.old writer.new result (Err ServeError.Write) }
    {
        let mut line = Vec::new(self.alloc);
        let mut body = Vec::new(self.alloc);
        let asked = read_request(session.part(), reader, &mut line, &mut body, number)?;
        let Some(command) = asked else {
            return Ok(false);
        };
        let request = Request {
            command,
            body: &body,
        };
        self.answer(session, &request, &mut line, writer)?;
        flush(writer)?;
        Ok(true)
    }

    // Answers commands until the input ends. Each answer is passed on before the next command is read. The watch is
    // called if the node went on by a close, before that is answered.
    fn serve_commands<R: CountedRead, W: CountedWrite>(
        &self,
        session: &mut Session,
        reader: &mut R,
        writer: &mut W,
    ) -> Result<(), ServeError>
        requires { session.old.part.plan.vertices ≡ self.now.graph.now.graph.vertices }
        ensures ok { OnOk result (ServesRest self.now.graph.now
            (R.remaining reader.old) (R.remaining reader.new)
            session.old session.new (W.contents writer.old) (W.contents writer.new)) }
        ensures part { session.new.part ≡ session.old.part }
        ensures stopped { IfErr result (λ e. (IsOfMachine e → ⊥) →
            StopsServing self.now.graph.now session.old.part e
            (R.remaining reader.old) (R.remaining reader.new)
            session.old session.new (W.contents writer.old) (W.contents writer.new)) }
        ensures wanting { result ≡ Err ServeError.Memory →
            StopsWanting session.old.part (R.remaining reader.old) (R.remaining reader.new) }
        ensures read { FailsAs R.failed_calls reader.old reader.new result (Err ServeError.Read) }
        ensures write { FailsAs W.failed_calls writer.old writer.new result (Err ServeError.Write) }
    {
        for i in 0..u64::MAX {
            let more = self.serve_one(session, reader, writer, i + 1)?;
            if !more {
                return Ok(());
            }
        }
        Err(ServeError::TooMany)
    }

    // Answers the commands for the node of a partition of a job, from its start on: whatever input the job was read
    // from.
    fn serve_part<R: CountedRead, W: CountedWrite>(
        &self,
        plan: &Plan,
        part: u16,
        reader: &mut R,
        writer: &mut W,
    ) -> Result<(), ServeNodeError>
        requires { IsJob (job_of self.now.graph.now.graph plan.now) }
        ensures served { (s : Settings) (counted : Bool) (left : Option (List ℕ)) →
            IsJobRead s counted left (R.remaining reader.old) self.now.graph.now plan.now →
            OnOk result (ServesNode s counted part left (R.remaining reader.new)
            (W.contents writer.old) (W.contents writer.new)) }
        ensures stopped { (s : Settings) (counted : Bool) (left : Option (List ℕ)) →
            IsJobRead s counted left (R.remaining reader.old) self.now.graph.now plan.now →
            (e : Fault) → result ≡ Err (ServeNodeError.Serve e) → (IsOfMachine e → ⊥) →
            StopsNode s counted part e left (R.remaining reader.new)
            (W.contents writer.old) (W.contents writer.new) }
        ensures wanting { (s : Settings) (counted : Bool) (left : Option (List ℕ)) →
            IsJobRead s counted left (R.remaining reader.old) self.now.graph.now plan.now →
            result ≡ Err (ServeNodeError.Serve ServeError.Memory) →
            WantsNode s counted part left (R.remaining reader.new) }
        ensures jobless { IfErr result (λ e. IsNoNode e →
            Keeps (W.contents writer.old) (W.contents writer.new)) }
        ensures same { IfErr result (λ e. IsNoNode e →
            R.remaining reader.new ≡ R.remaining reader.old) }
        ensures refused { IfErr result (λ e. IsNoNode e → IsNoStart plan.now part e) }
        ensures read { FailsAs R.failed_calls reader.old reader.new result
            (Err (ServeNodeError.Serve ServeError.Read)) }
        ensures write { FailsAs W.failed_calls writer.old writer.new result
            (Err (ServeNodeError.Serve ServeError.Write)) }
    {
        let mut session = start(self.alloc, self.graph, plan, part)?;
        let served = self.serve_commands(&mut session, reader, writer);
        drop(session);
        match served {
            Ok(()) => Ok(()),
            Err(error) => Err(ServeNodeError::Serve(error)),
        }
    }
}

/// Reads a job, and answers the commands for the node of one of its partitions. That there is no such partition is
/// answered after all other faults of the job. The watch is called once the job is read, and each time the node went on
/// by a close.
pub fn serve_node<R: CountedRead, W: CountedWrite, V: Watch>(
    alloc: Global,
    state: RandomState,
    job: &JobInput,
    part: u16,
    watch: &V,
    reader: &mut R,
    writer: &mut W,
) -> Result<(), ServeNodeError>
    ensures served { OnOk result (ServesNode (settings_of job.now.options) job.now.counted part
        (R.remaining reader.old) (R.remaining reader.new)
        (W.contents writer.old) (W.contents writer.new)) }
    ensures stopped { (e : Fault) → result ≡ Err (ServeNodeError.Serve e) → (IsOfMachine e → ⊥) →
        StopsNode (settings_of job.now.options) job.now.counted part e
        (R.remaining reader.old) (R.remaining reader.new)
        (W.contents writer.old) (W.contents writer.new) }
    ensures wanting { result ≡ Err (ServeNodeError.Serve ServeError.Memory) →
        WantsNode (settings_of job.now.options) job.now.counted part
        (R.remaining reader.old) (R.remaining reader.new) }
    ensures jobless { IfErr result (λ e. IsNoNode e →
        Keeps (W.contents writer.old) (W.contents writer.new)) }
    ensures refused { IfErr result (λ e. IsNoNode e →
        HasNoNode (settings_of job.now.options) job.now.counted part
        (R.remaining reader.old) (R.remaining reader.new) e) }
    ensures read { result ≡ Err (ServeNodeError.Serve ServeError.Read) →
        RisesByOne (R.failed_calls reader.old) (R.failed_calls reader.new) }
    ensures unread { result ≡ Err (ServeNodeError.Job InputError.Read) →
        RisesByOne (R.failed_calls reader.old) (R.failed_calls reader.new) }
    ensures counted { result ≢ Err (ServeNodeError.Serve ServeError.Read) →
        result ≢ Err (ServeNodeError.Job InputError.Read) →
        R.failed_calls reader.new ≡ R.failed_calls reader.old }
    ensures write { result ≡ Err (ServeNodeError.Serve ServeError.Write) →
        RisesByOne (W.failed_calls writer.old) (W.failed_calls writer.new) }
    ensures written { result ≢ Err (ServeNodeError.Serve ServeError.Write) →
        W.failed_calls writer.new ≡ W.failed_calls writer.old }
{
    let (graph, plan, records) = read_job(alloc, state, job, reader)?;
    watch.after_read(records, graph.vertices());
    let server = Server {
        alloc,
        graph: &graph,
        watch,
    };
    let served = server.serve_part(&plan, part, reader, writer);
    drop(graph);
    served
}
