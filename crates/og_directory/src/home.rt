//! The home's table, one function for each kind of message.

ghost use Rattle.std.specs.Prelude.{◌≡◌, ◌≤◌, ◌<◌, ◌+◌, ◌++◌, ◌∷◌, [], length, map, not, IsSome, IfSome, false};
ghost use Rattle.std.specs.List.{list_any};
ghost use Rattle.og_msg.specs.declared.Kind.{Kind as Said};
ghost use Rattle.og_directory.specs.Table.{to, with_node, sharers_but, grant as granted, is_refusal, read_row, read_exclusive_row, upgrade_row, write_back_row, sharing_row, transfer_row, poisoned_row, poison_row, copy_row, row_of, is_request, is_counted, IsFromItsSender, NamesNodes};

use crate::{Entry, State};
use og_base::{ActorId, Block, group_size};
use og_line::Line;
use og_msg::{Kind, Letter, Msg, Outbox};
use og_sharers::Sharers;

/// What a home serves: the block, who sent the message, and the machine's number of nodes, which is
/// the mover's own number.
#[derive(Clone, Copy)]
struct Case {
    block: Block,
    sender: ActorId,
    nodes: u8,
}

fn send(out: &mut Outbox, to: ActorId, kind: Kind)
    requires { length out.old < 132 }
    ensures { out.new ≡ out.old ++ record { to = to; kind = kind } ∷ [] }
{
    out.add(Letter { to, kind });
}

/// Sends an invalidation to each other node of these groups, rising, and answers how many they are.
fn invalidate_others(case: Case, sharers: &Sharers, out: &mut Outbox) -> u8
    requires nodes { case.nodes ≤ 128 }
    requires sender { case.sender ≤ case.nodes }
    requires room { length out.old + case.nodes ≤ 132 }
    ensures sent { out.new ≡ out.old ++ map (λ q. to q (Said.Invalidate case.block case.sender)) (sharers_but case.nodes case.sender sharers.now) }
    ensures count { result ≡ length (sharers_but case.nodes case.sender sharers.now) }
    ensures few { length out.new ≤ length out.old + case.nodes }
{
    let others = sharers.others(case.sender, case.nodes);
    let mut count = 0;
    let mut from = 0;
    while let Some(node) = others.least(from) {
        out.add(Letter {
            to: node,
            kind: Kind::Invalidate {
                block: case.block,
                requester: case.sender,
            },
        });
        count += 1;
        from = node + 1;
    }
    count
}

/// The groups with a node's.
fn with_sharer(sharers: Sharers, node: ActorId, nodes: u8) -> Sharers
    requires nodes { nodes ≤ 128 }
    requires node { node < nodes }
    ensures { result ≡ with_node nodes node sharers }
{
    let mut sharers = sharers;
    sharers.add(node, nodes);
    sharers
}

/// Refuses a request for now.
fn refuse(case: Case, out: &mut Outbox)
    requires { length out.old < 132 }
    ensures { out.new ≡ out.old ++ to case.sender (Said.Nak case.block) ∷ [] }
{
    send(out, case.sender, Kind::Nak { block: case.block });
}

/// Refuses a request for a block whose page has moved away.
fn refuse_poisoned(case: Case, out: &mut Outbox)
    requires { length out.old < 132 }
    ensures { out.new ≡ out.old ++ to case.sender (Said.PoisonError case.block) ∷ [] }
{
    send(out, case.sender, Kind::PoisonError { block: case.block });
}

/// Gives the sender the only copy, with the home's line.
fn give(entry: &mut Entry, line: &Line, case: Case, acks: u8, out: &mut Outbox)
    requires { length out.old < 132 }
    ensures entry { entry.new ≡ State.Exclusive case.sender }
    ensures letters { out.new ≡ out.old ++ to case.sender (Said.ExclusiveReply case.block line.now acks) ∷ [] }
{
    let (block, line) = (case.block, *line);
    *entry = Entry::of(State::Exclusive(case.sender));
    send(out, case.sender, Kind::ExclusiveReply { block, line, acks });
}

/// Asks the owner by this intervention, and sends the sender the home's line meanwhile.
fn ask_owner(line: &Line, case: Case, owner: ActorId, intervention: Kind, out: &mut Outbox)
    requires { length out.old + 2 ≤ 132 }
    ensures { out.new ≡ out.old ++ to owner intervention ∷ to case.sender (Said.SpecReply case.block line.now) ∷ [] }
{
    let (block, line) = (case.block, *line);
    send(out, owner, intervention);
    send(out, case.sender, Kind::SpecReply { block, line });
}

/// Answers in the place of the owner, whose write-back came first, and tells the owner so.
fn stand_in(case: Case, requester: ActorId, response: Kind, out: &mut Outbox)
    requires { length out.old + 2 ≤ 132 }
    ensures { out.new ≡ out.old ++ to requester response ∷ to case.sender (Said.WbBusyAck case.block) ∷ [] }
{
    send(out, requester, response);
    send(out, case.sender, Kind::WbBusyAck { block: case.block });
}

/// The mover's answer, with this line.
fn poison_reply(case: Case, line: &Line, acks: u8) -> Kind
    ensures { result ≡ Said.PoisonReply case.block line.now acks }
{
    Kind::PoisonReply {
        block: case.block,
        line: *line,
        acks,
    }
}

/// `Read`. The answer is whether the request counts.
fn read(entry: &mut Entry, line: &Line, case: Case, out: &mut Outbox) -> bool
    requires nodes { case.nodes ≤ 128 }
    requires sender { case.sender < case.nodes }
    requires room { length out.old + 2 ≤ 132 }
    requires named { NamesNodes case.nodes entry.old }
    ensures entry { entry.new ≡ (read_row case.nodes line.now case.sender case.block entry.old).entry }
    ensures line { line.now ≡ (read_row case.nodes line.now case.sender case.block entry.old).line }
    ensures letters { out.new ≡ out.old ++ (read_row case.nodes line.now case.sender case.block entry.old).letters }
    ensures counts { result ≡ not (list_any is_refusal (read_row case.nodes line.now case.sender case.block entry.old).letters) }
    ensures named { NamesNodes case.nodes entry.new }
{
    match entry.state() {
        State::Unowned => {
            give(entry, line, case, 0, out);
            true
        }
        State::Shared(_) => {
            let sharers = with_sharer(entry.sharers(), case.sender, case.nodes);
            *entry = Entry::of(State::Shared(sharers));
            let (block, line) = (case.block, *line);
            send(out, case.sender, Kind::SharedReply { block, line });
            true
        }
        State::Exclusive(owner) if owner == case.sender => {
            give(entry, line, case, 0, out);
            true
        }
        State::Exclusive(owner) => {
            let (block, requester) = (case.block, case.sender);
            *entry = Entry::of(State::BusyShared { owner, requester });
            ask_owner(
                line,
                case,
                owner,
                Kind::InterveneShared { block, requester },
                out,
            );
            true
        }
        State::BusyShared { .. } | State::BusyExclusive { .. } | State::BusyPoison { .. } => {
            refuse(case, out);
            false
        }
        State::Poison => {
            refuse_poisoned(case, out);
            false
        }
    }
}

/// `ReadEx`. The answer is whether the request counts.
fn read_exclusive(entry: &mut Entry, line: &Line, case: Case, out: &mut Outbox) -> bool
    requires nodes { case.nodes ≤ 128 }
    requires sender { case.sender < case.nodes }
    requires room { length out.old + case.nodes + 2 ≤ 132 }
    requires named { NamesNodes case.nodes entry.old }
    ensures entry { entry.new ≡ (read_exclusive_row case.nodes line.now case.sender case.block entry.old).entry }
    ensures line { line.now ≡ (read_exclusive_row case.nodes line.now case.sender case.block entry.old).line }
    ensures letters { out.new ≡ out.old ++ (read_exclusive_row case.nodes line.now case.sender case.block entry.old).letters }
    ensures counts { result ≡ not (list_any is_refusal (read_exclusive_row case.nodes line.now case.sender case.block entry.old).letters) }
    ensures named { NamesNodes case.nodes entry.new }
{
    match entry.state() {
        State::Unowned => {
            give(entry, line, case, 0, out);
            true
        }
        State::Shared(_) => {
            let acks = invalidate_others(case, &entry.sharers(), out);
            give(entry, line, case, acks, out);
            true
        }
        State::Exclusive(owner) if owner == case.sender => {
            give(entry, line, case, 0, out);
            true
        }
        State::Exclusive(owner) => {
            let (block, requester) = (case.block, case.sender);
            *entry = Entry::of(State::BusyExclusive {
                owner,
                requester,
                returned: false,
            });
            ask_owner(
                line,
                case,
                owner,
                Kind::InterveneEx { block, requester },
                out,
            );
            true
        }
        State::BusyShared { .. } | State::BusyExclusive { .. } | State::BusyPoison { .. } => {
            refuse(case, out);
            false
        }
        State::Poison => {
            refuse_poisoned(case, out);
            false
        }
    }
}

/// The answer to an upgrade that is granted: where a bit of the set is a group, the node may have no
/// copy and gets the line.
fn grant(line: &Line, case: Case, acks: u8) -> Kind
    ensures { result ≡ granted case.nodes case.block line.now acks }
{
    if group_size(case.nodes) == 1 {
        Kind::UpgradeReply {
            block: case.block,
            acks,
        }
    } else {
        Kind::ExclusiveReply {
            block: case.block,
            line: *line,
            acks,
        }
    }
}

/// `Upgrade`. The answer is whether the request counts.
fn upgrade(entry: &mut Entry, line: &Line, case: Case, out: &mut Outbox) -> bool
    requires row { IsSome (upgrade_row case.nodes line.now case.sender case.block entry.old) }
    requires nodes { case.nodes ≤ 128 }
    requires sender { case.sender < case.nodes }
    requires room { length out.old + case.nodes + 2 ≤ 132 }
    requires named { NamesNodes case.nodes entry.old }
    ensures entry { IfSome (upgrade_row case.nodes line.now case.sender case.block entry.old) (λ row. entry.new ≡ row.entry) }
    ensures line { IfSome (upgrade_row case.nodes line.now case.sender case.block entry.old) (λ row. line.now ≡ row.line) }
    ensures letters { IfSome (upgrade_row case.nodes line.now case.sender case.block entry.old) (λ row. out.new ≡ out.old ++ row.letters) }
    ensures counts { IfSome (upgrade_row case.nodes line.now case.sender case.block entry.old) (λ row. result ≡ not (list_any is_refusal row.letters)) }
    ensures named { NamesNodes case.nodes entry.new }
{
    match entry.state() {
        State::Shared(_) if entry.sharers().has(case.sender, case.nodes) => {
            let acks = invalidate_others(case, &entry.sharers(), out);
            *entry = Entry::of(State::Exclusive(case.sender));
            send(out, case.sender, grant(line, case, acks));
            true
        }
        State::Poison => {
            refuse_poisoned(case, out);
            false
        }
        _ => {
            refuse(case, out);
            false
        }
    }
}

/// `WriteBack` with this line.
fn write_back(entry: &mut Entry, line: &mut Line, case: Case, fresh: Line, out: &mut Outbox)
    requires row { IsSome (write_back_row case.nodes case.sender case.block fresh entry.old) }
    requires nodes { case.nodes ≤ 128 }
    requires named { NamesNodes case.nodes entry.old }
    requires room { length out.old + 2 ≤ 132 }
    ensures entry { IfSome (write_back_row case.nodes case.sender case.block fresh entry.old) (λ row. entry.new ≡ row.entry) }
    ensures line { IfSome (write_back_row case.nodes case.sender case.block fresh entry.old) (λ row. line.new ≡ row.line) }
    ensures letters { IfSome (write_back_row case.nodes case.sender case.block fresh entry.old) (λ row. out.new ≡ out.old ++ row.letters) }
    ensures named { NamesNodes case.nodes entry.new }
{
    let block = case.block;
    *line = fresh;
    match entry.state() {
        State::Exclusive(_) => {
            *entry = Entry::unowned();
            send(out, case.sender, Kind::WbAck { block });
        }
        State::BusyShared { requester, .. } => {
            let sharers = with_sharer(Sharers::none(), requester, case.nodes);
            *entry = Entry::of(State::Shared(sharers));
            stand_in(
                case,
                requester,
                Kind::SharedResponse { block, line: fresh },
                out,
            );
        }
        State::BusyExclusive {
            owner,
            requester,
            ..
        } if owner == case.sender => {
            *entry = Entry::of(State::Exclusive(requester));
            stand_in(
                case,
                requester,
                Kind::ExclusiveResponse { block, line: fresh },
                out,
            );
        }
        State::BusyExclusive {
            owner,
            requester,
            ..
        } => {
            *entry = Entry::of(State::BusyExclusive {
                owner,
                requester,
                returned: true,
            });
            send(out, case.sender, Kind::WbAck { block });
        }
        State::BusyPoison { .. } => {
            *entry = Entry::of(State::Poison);
            stand_in(case, case.nodes, poison_reply(case, &fresh, 0), out);
        }
        State::Unowned | State::Shared(_) | State::Poison => unreachable!(),
    }
}

/// `SharingWriteBack` and `SharingTransfer`: the owner shares the block.
fn share(entry: &mut Entry, line: &Line, case: Case)
    requires row { IsSome (sharing_row case.nodes case.sender line.now entry.old) }
    requires nodes { case.nodes ≤ 128 }
    requires named { NamesNodes case.nodes entry.old }
    ensures entry { IfSome (sharing_row case.nodes case.sender line.now entry.old) (λ row. entry.new ≡ row.entry) }
    ensures line { IfSome (sharing_row case.nodes case.sender line.now entry.old) (λ row. line.now ≡ row.line) }
    ensures letters { IfSome (sharing_row case.nodes case.sender line.now entry.old) (λ row. row.letters ≡ []) }
    ensures named { NamesNodes case.nodes entry.new }
{
    let State::BusyShared { owner, requester } = entry.state() else {
        unreachable!()
    };
    let sharers = with_sharer(Sharers::none(), owner, case.nodes);
    *entry = Entry::of(State::Shared(with_sharer(sharers, requester, case.nodes)));
}

/// `DirtyTransfer`: the owner has given the block away.
fn transfer(entry: &mut Entry, line: &Line, case: Case)
    requires row { IsSome (transfer_row line.now case.sender entry.old) }
    requires named { NamesNodes case.nodes entry.old }
    ensures entry { IfSome (transfer_row line.now case.sender entry.old) (λ row. entry.new ≡ row.entry) }
    ensures line { IfSome (transfer_row line.now case.sender entry.old) (λ row. line.now ≡ row.line) }
    ensures letters { IfSome (transfer_row line.now case.sender entry.old) (λ row. row.letters ≡ []) }
    ensures named { NamesNodes case.nodes entry.new }
{
    let State::BusyExclusive {
        requester,
        returned,
        ..
    } = entry.state()
    else {
        unreachable!()
    };
    *entry = if returned {
        Entry::unowned()
    } else {
        Entry::of(State::Exclusive(requester))
    };
}

/// `PoisonBack` and `PoisonClean`: the owner gives the block to the mover.
fn give_up(entry: &mut Entry, line: &Line, case: Case, out: &mut Outbox)
    requires row { IsSome (poisoned_row case.nodes case.sender case.block line.now entry.old) }
    requires room { length out.old < 132 }
    ensures entry { IfSome (poisoned_row case.nodes case.sender case.block line.now entry.old) (λ row. entry.new ≡ row.entry) }
    ensures line { IfSome (poisoned_row case.nodes case.sender case.block line.now entry.old) (λ row. line.now ≡ row.line) }
    ensures letters { IfSome (poisoned_row case.nodes case.sender case.block line.now entry.old) (λ row. out.new ≡ out.old ++ row.letters) }
    ensures named { NamesNodes case.nodes entry.new }
{
    let State::BusyPoison { .. } = entry.state() else {
        unreachable!()
    };
    *entry = Entry::of(State::Poison);
    send(out, case.nodes, poison_reply(case, line, 0));
}

/// `PoisonRead`, from the mover.
fn poison(entry: &mut Entry, line: &Line, case: Case, out: &mut Outbox)
    requires row { IsSome (poison_row case.nodes line.now case.block entry.old) }
    requires nodes { case.nodes ≤ 128 }
    requires mover { case.sender ≡ case.nodes }
    requires room { length out.old + case.nodes + 2 ≤ 132 }
    requires named { NamesNodes case.nodes entry.old }
    ensures entry { IfSome (poison_row case.nodes line.now case.block entry.old) (λ row. entry.new ≡ row.entry) }
    ensures line { IfSome (poison_row case.nodes line.now case.block entry.old) (λ row. line.now ≡ row.line) }
    ensures letters { IfSome (poison_row case.nodes line.now case.block entry.old) (λ row. out.new ≡ out.old ++ row.letters) }
    ensures named { NamesNodes case.nodes entry.new }
{
    match entry.state() {
        State::Unowned => {
            *entry = Entry::of(State::Poison);
            send(out, case.sender, poison_reply(case, line, 0));
        }
        State::Shared(_) => {
            let acks = invalidate_others(case, &entry.sharers(), out);
            *entry = Entry::of(State::Poison);
            send(out, case.sender, poison_reply(case, line, acks));
        }
        State::Exclusive(owner) => {
            *entry = Entry::of(State::BusyPoison { owner });
            send(out, owner, Kind::IntervenePoison { block: case.block });
        }
        State::BusyShared { .. } | State::BusyExclusive { .. } => refuse(case, out),
        State::BusyPoison { .. } | State::Poison => unreachable!(),
    }
}

/// `CopyIn` with this line, from the mover.
fn copy_in(entry: &Entry, line: &mut Line, case: Case, fresh: Line, out: &mut Outbox)
    requires row { IsSome (copy_row case.nodes case.block fresh entry.now) }
    requires mover { case.sender ≡ case.nodes }
    requires room { length out.old < 132 }
    ensures entry { IfSome (copy_row case.nodes case.block fresh entry.now) (λ row. entry.now ≡ row.entry) }
    ensures line { IfSome (copy_row case.nodes case.block fresh entry.now) (λ row. line.new ≡ row.line) }
    ensures letters { IfSome (copy_row case.nodes case.block fresh entry.now) (λ row. out.new ≡ out.old ++ row.letters) }
{
    let State::Unowned = entry.state() else {
        unreachable!()
    };
    *line = fresh;
    send(out, case.sender, Kind::CopyDone { block: case.block });
}

fn case_of(msg: &Msg, mover: ActorId, block: Block) -> Case
    ensures { result ≡ record { block = block; sender = msg.now.id.sender; nodes = mover } }
{
    Case {
        block,
        sender: msg.id.sender,
        nodes: mover,
    }
}

/// The row of a message that is no request.
fn settle(entry: &mut Entry, line: &mut Line, msg: &Msg, mover: ActorId, out: &mut Outbox)
    requires row { IsSome (row_of mover line.old msg.now entry.old) }
    requires other { is_request msg.now.kind ≡ false }
    requires mover { mover ≤ 128 }
    requires sender { IsFromItsSender mover msg.now }
    requires named { NamesNodes mover entry.old }
    requires room { length out.old + mover + 2 ≤ 132 }
    ensures entry { IfSome (row_of mover line.old msg.now entry.old) (λ row. entry.new ≡ row.entry) }
    ensures line { IfSome (row_of mover line.old msg.now entry.old) (λ row. line.new ≡ row.line) }
    ensures letters { IfSome (row_of mover line.old msg.now entry.old) (λ row. out.new ≡ out.old ++ row.letters) }
    ensures named { NamesNodes mover entry.new }
{
    match msg.kind {
        Kind::WriteBack { block, line: fresh } => {
            write_back(entry, line, case_of(msg, mover, block), fresh, out);
        }
        Kind::SharingWriteBack { block, line: fresh } => {
            *line = fresh;
            share(entry, line, case_of(msg, mover, block));
        }
        Kind::SharingTransfer { block } => share(entry, line, case_of(msg, mover, block)),
        Kind::DirtyTransfer { block } => transfer(entry, line, case_of(msg, mover, block)),
        Kind::PoisonRead { block } => poison(entry, line, case_of(msg, mover, block), out),
        Kind::PoisonBack { block, line: fresh } => {
            *line = fresh;
            give_up(entry, line, case_of(msg, mover, block), out);
        }
        Kind::PoisonClean { block } => give_up(entry, line, case_of(msg, mover, block), out),
        Kind::CopyIn { block, line: fresh } => {
            copy_in(entry, line, case_of(msg, mover, block), fresh, out);
        }
        _ => unreachable!(),
    }
}

/// Makes the row of the home's table for a message about a block with this entry and this line:
/// changes both and adds the letters, in the row's order. The answer is whether the message is a
/// request that counts.
///
/// The mover's number is the number of nodes, at most 128.
pub fn home_step(
    entry: &mut Entry,
    line: &mut Line,
    msg: &Msg,
    mover: ActorId,
    out: &mut Outbox,
) -> bool
    requires row { IsSome (row_of mover line.old msg.now entry.old) }
    requires mover { mover ≤ 128 }
    requires sender { IsFromItsSender mover msg.now }
    requires named { NamesNodes mover entry.old }
    requires room { length out.old + mover + 2 ≤ 132 }
    ensures entry { IfSome (row_of mover line.old msg.now entry.old) (λ row. entry.new ≡ row.entry) }
    ensures line { IfSome (row_of mover line.old msg.now entry.old) (λ row. line.new ≡ row.line) }
    ensures letters { IfSome (row_of mover line.old msg.now entry.old) (λ row. out.new ≡ out.old ++ row.letters) }
    ensures counts { IfSome (row_of mover line.old msg.now entry.old) (λ row. result ≡ is_counted msg.now.kind row.letters) }
    ensures named { NamesNodes mover entry.new }
{
    match msg.kind {
        Kind::Read { block } => read(entry, line, case_of(msg, mover, block), out),
        Kind::ReadEx { block } => read_exclusive(entry, line, case_of(msg, mover, block), out),
        Kind::Upgrade { block } => upgrade(entry, line, case_of(msg, mover, block), out),
        _ => {
            settle(entry, line, msg, mover, out);
            false
        }
    }
}
