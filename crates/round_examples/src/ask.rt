//! Asking: each rank looks up columns of a table whose parts other ranks own.

ghost use Rattle.std.specs.Prelude.{◌≡◌, ◌+◌, ◌<◌, ◌^◌, ◌++◌, [], IfOk, OnOk, is_ok, if◌then◌else◌, length, map, replicate, max};
ghost use Rattle.std.specs.List.{All};
ghost use Rattle.list_laws.specs.Lists.{changed_at};
ghost use Rattle.round_examples.specs.Asks.{asks_from, ask_replies_from, ask_reply_to, noted_ask, IsAskQuery, asking};

use bale_items::{Item, NoMemory};
use round_program::Program;
use std::alloc::Global;
use std::marker::Model;

/// One rank's part of a look-up in two rounds. In round 0 each rank asks the owner of every column
/// that it names; in round 1 each owner replies. Column `j` belongs to rank `j mod ranks`.
#[derive(Drop)]
pub struct Ask {
    alloc: Global,
    rank: u32,
    ranks: u32,
    round: u64,
    /// the value of each column; only those of own columns are read
    table: Vec<u64>,
    /// the queries that came, by sender, in order
    queries: Vec<Vec<Item>>,
    /// what is sent in this round: the queries, and then the replies
    outgoing: Vec<(u32, Item)>,
    /// the value of each column that this rank named, once it is known
    answers: Vec<u64>,
}

impl Model for Ask {
    ghost use Rattle.round_examples.specs.Asks.{AskState, IsAsk};

    ghost Value = { AskState };

    ghost use Rattle.round_examples.specs.code.AskView.{ask_state};

    ghost view = { ask_state };

    ghost invariant = { λ s. IsAsk (ask_state s) };
}

impl Ask {
    /// A rank that asks for the columns `names`, each a place of `table`.
    pub fn new(
        alloc: Global,
        rank: u32,
        ranks: u32,
        table: Vec<u64>,
        names: &[u32],
    ) -> Result<Ask, NoMemory>
        requires rank { rank < ranks }
        requires columns { length table.items < 2 ^ 32 }
        requires named { All (λ j. j < length table.items) names.now }
        ensures { IfOk result (λ s. s ≡ asking rank ranks table.items names.now) }
    {
        values_are_words(&table);
        let queries = no_queries(alloc, ranks)?;
        let outgoing = asks(alloc, ranks, names)?;
        let answers = vec![in alloc; 0u64; names.len()]?;
        Ok(Ask {
            alloc,
            rank,
            ranks,
            round: 0,
            table,
            queries,
            outgoing,
            answers,
        })
    }

    /// The value of each column that was named, in the order of the names; 0 if it isn't known
    /// yet.
    pub fn answers(&self) -> &[u64]
        ensures { result.now ≡ self.now.answers }
    {
        &self.answers
    }
}

impl Program for Ask {
    ghost use Rattle.round_examples.specs.Asks.{ask_rules};
    ghost use Rattle.round_examples.specs.laws.AskLaws.{ask_laws};

    ghost rules = { ask_rules };

    ghost laws = { ask_laws };

    fn rank(&self) -> u32 {
        self.rank
    }

    fn ranks(&self) -> u32 {
        self.ranks
    }

    fn round(&self) -> u64 {
        self.round
    }

    fn count(&self) -> u64 {
        self.outgoing.len() as u64
    }

    fn emission(&self, i: u64) -> (u32, Item) {
        self.outgoing[i as usize]
    }

    fn fits(&self, from: u32, item: Item) -> bool {
        from < self.ranks
            && (self.round != 0
                || (item.a < self.table.len() as u64
                    && item.a % self.ranks as u64 == self.rank as u64))
    }

    fn absorb(&mut self, from: u32, item: Item) -> Result<(), NoMemory> {
        if self.round == 0 {
            return note(&mut self.queries, from as usize, item);
        }
        raise(&mut self.answers, item.a, item.b);
        Ok(())
    }

    fn vote(&self) -> u64 {
        0
    }

    fn goes_on(&self, votes: u64) -> bool {
        self.round == 0
    }

    fn end_round(&mut self, votes: u64) -> Result<bool, NoMemory> {
        let goes_on = self.round == 0;
        self.outgoing = next_outgoing(self.alloc, goes_on, &self.table, &self.queries)?;
        self.round = self.round.saturating_add(1);
        Ok(goes_on)
    }
}

/// Appends a query to its sender's list.
fn note(queries: &mut Vec<Vec<Item>>, from: usize, item: Item) -> Result<(), NoMemory>
    requires { from < length queries.old.items }
    ensures { map (λ l. l.items) queries.new.items
        ≡ (if is_ok result then noted_ask (map (λ l. l.items) queries.old.items) from item else map
        (λ l. l.items) queries.old.items) }
{
    queries[from].push(item).map_err(|_| NoMemory)
}

/// Takes a value in, if there is a place for it and no greater value is there.
fn raise(answers: &mut Vec<u64>, at: u64, value: u64)
    ensures { answers.new.items ≡ changed_at answers.old.items at 0 (λ v. max v value) }
{
    if at < answers.len() as u64 {
        let i = at as usize;
        answers[i] = answers[i].max(value);
    }
}

/// What is sent in the next round: replies, if this one was the round of the queries.
fn next_outgoing(
    alloc: Global,
    asked: bool,
    table: &[u64],
    queries: &[Vec<Item>],
) -> Result<Vec<(u32, Item)>, NoMemory>
    requires senders { length queries.now < 2 ^ 32 }
    requires asked { All (All (IsAskQuery (length table.now))) (map (λ l. l.items) queries.now) }
    ensures { IfOk result (λ v. v.items
        ≡ (if asked then ask_replies_from table.now 0 (map (λ l. l.items) queries.now) else [])) }
{
    if asked {
        replies(alloc, table, queries)
    } else {
        Ok(Vec::new(alloc))
    }
}

/// The replies to lists of queries, by sender.
fn replies(
    alloc: Global,
    table: &[u64],
    queries: &[Vec<Item>],
) -> Result<Vec<(u32, Item)>, NoMemory>
    requires senders { length queries.now < 2 ^ 32 }
    requires asked { All (All (IsAskQuery (length table.now))) (map (λ l. l.items) queries.now) }
    ensures { IfOk result (λ v. v.items ≡ ask_replies_from table.now 0 (map (λ l. l.items) queries.now)) }
{
    let mut outgoing = Vec::new(alloc);
    for (from, list) in queries.iter().enumerate() {
        reply_all(&mut outgoing, table, from as u32, list)?;
    }
    Ok(outgoing)
}

/// Appends the replies to one sender's queries.
fn reply_all(
    outgoing: &mut Vec<(u32, Item)>,
    table: &[u64],
    from: u32,
    queries: &[Item],
) -> Result<(), NoMemory>
    requires { All (IsAskQuery (length table.now)) queries.now }
    ensures { OnOk result (outgoing.new.items ≡ outgoing.old.items ++ map (ask_reply_to table.now from) queries.now) }
{
    for query in queries {
        let reply = Item {
            a: query.b,
            b: table[query.a as usize],
            c: 0,
        };
        outgoing.push((from, reply))?;
    }
    Ok(())
}

/// An empty list for each sender.
fn no_queries(alloc: Global, ranks: u32) -> Result<Vec<Vec<Item>>, NoMemory>
    ensures { IfOk result (λ v. map (λ l. l.items) v.items ≡ replicate ranks []) }
{
    let mut queries = Vec::new(alloc);
    for _sender in 0..ranks {
        queries.push(Vec::new(alloc))?;
    }
    Ok(queries)
}

/// The queries for a list of columns.
fn asks(alloc: Global, ranks: u32, names: &[u32]) -> Result<Vec<(u32, Item)>, NoMemory>
    requires { 0 < ranks }
    ensures { IfOk result (λ v. v.items ≡ asks_from ranks 0 names.now) }
{
    let mut outgoing = Vec::new(alloc);
    for (e, column) in names.iter().enumerate() {
        let query = Item {
            a: *column as u64,
            b: e as u64,
            c: 0,
        };
        outgoing.push((*column % ranks, query))?;
    }
    Ok(outgoing)
}

/// Each value of a table is below 2^64, as its type says.
fn values_are_words(table: &[u64])
    ensures { All (λ v. v < 2 ^ 64) table.now }
{}
