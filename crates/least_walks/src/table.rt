//! The edges of a rank's vertices, those of each vertex together, and what they offer.

ghost use Rattle.std.specs.Prelude.{◌≡◌, ◌<◌, ◌≤◌, ◌/◌, ◌+◌, ◌%◌, ◌++◌, [], ◌∷◌, OnOk, IfOk, length, map, replicate, slice_index_or};
ghost use Rattle.std.specs.List.{All};
ghost use Rattle.bale_items.specs.declared.triple.Triple.{Triple};
ghost use Rattle.list_laws.specs.Lists.{changed_at, IsPrefix};
ghost use Rattle.least_walks.specs.Tables.{edge_of, table_with_edge, table_of, offer, offers_by_place};
ghost use Rattle.least_walks.specs.code.Spans.{in_span, lists_of, IsSpanWithin};

use crate::vertices::Vertices;
use bale_items::{Item, NoMemory, Triple, bits_of};
use std::alloc::Global;
use std::marker::Model;

/// An edge, as the owner of its beginning keeps it.
#[derive(Clone, Copy)]
pub struct Edge {
    /// the rank that owns its end
    pub owner: u32,
    /// the vertex at which it ends
    pub to: u32,
    pub weight: u64,
}

/// The edges of a rank's vertices, by the vertex's place, seen as a list of lists.
#[derive(Drop)]
pub struct Table {
    /// those of all vertices, each vertex's together
    edges: Vec<Edge>,
    /// where those of each vertex stand
    spans: Vec<Span>,
}

/// Places of edges, from the first one to behind the last one.
#[derive(Clone, Copy)]
struct Span {
    from: usize,
    to: usize,
}

impl Model for Table {
    ghost use Rattle.std.specs.Prelude.{List};
    ghost use Rattle.std.specs.List.{All};
    ghost use Rattle.least_walks.specs.declared.table.Edge.{Edge};
    ghost use Rattle.least_walks.specs.code.Spans.{lists_of, IsSpanWithin};

    ghost Value = { List (List Edge) };

    ghost view = { λ t. lists_of t.edges.items t.spans.items };

    ghost invariant = { λ t. All (IsSpanWithin t.edges.items) t.spans.items };
}

impl Table {
    /// No places. No memory is taken.
    pub fn new(alloc: Global) -> Table
        ensures { result ≡ [] }
    {
        Table {
            edges: Vec::new(alloc),
            spans: Vec::new(alloc),
        }
    }

    /// The edges of so many places with weights from `low` to `high`, in the order of the entries.
    /// It is fast if the entries of each vertex are together.
    ///
    /// # Errors
    ///
    /// `NoMemory` if there was none.
    pub fn of(
        alloc: Global,
        ranks: u32,
        places: u32,
        low: u64,
        high: u64,
        entries: &[Triple],
    ) -> Result<Table, NoMemory>
        requires some { 0 < ranks }
        requires inside { All (λ t. t.i / ranks < places) entries.now }
        ensures { IfOk result (λ t. t ≡ table_of ranks places low high entries.now) }
    {
        let mut edges = Vec::with_capacity(alloc, entries.len())?;
        let mut spans = empty_spans(alloc, places as usize)?;
        for t in entries {
            keep(&mut edges, &mut spans, ranks, low, high, *t)?;
        }
        Ok(Table { edges, spans })
    }

    /// How many places there are.
    pub fn len(&self) -> usize
        ensures { result ≡ length self.now }
    {
        self.spans.len()
    }

    /// The edges at a place.
    #[inline(always)]
    fn at(&self, place: u32) -> &[Edge]
        requires { place < length self.now }
        ensures { result.now ≡ slice_index_or self.now place [] }
    {
        let span = self.spans[place as usize];
        &self.edges[span.from..span.to]
    }
}

/// So many spans without edges.
fn empty_spans(alloc: Global, places: usize) -> Result<Vec<Span>, NoMemory>
    ensures { IfOk result (λ v. v.items ≡ replicate places (record { from = 0; to = 0 })) }
{
    let nothing = Span { from: 0, to: 0 };
    Ok(vec![in alloc; nothing; places]?)
}

/// Puts the edge of an entry to its vertex, if its weight is from `low` to `high`.
#[inline(always)]
fn keep(
    edges: &mut Vec<Edge>,
    spans: &mut Vec<Span>,
    ranks: u32,
    low: u64,
    high: u64,
    t: Triple,
) -> Result<(), NoMemory>
    requires some { 0 < ranks }
    requires inside { t.i / ranks < length spans.old.items }
    requires within { All (IsSpanWithin edges.old.items) spans.old.items }
    ensures kept { OnOk result (lists_of edges.new.items spans.new.items
        ≡ table_with_edge ranks low high t (lists_of edges.old.items spans.old.items)) }
    ensures within { OnOk result (All (IsSpanWithin edges.new.items) spans.new.items) }
{
    let weight = bits_of(t.v);
    if low <= weight && weight <= high {
        push_edge(edges, spans, (t.i / ranks) as usize, edge_of(ranks, t))?;
    }
    Ok(())
}

/// Appends an edge to those at a place.
#[inline(always)]
fn push_edge(
    edges: &mut Vec<Edge>,
    spans: &mut Vec<Span>,
    place: usize,
    edge: Edge,
) -> Result<(), NoMemory>
    requires inside { place < length spans.old.items }
    requires within { All (IsSpanWithin edges.old.items) spans.old.items }
    ensures pushed { OnOk result (lists_of edges.new.items spans.new.items
        ≡ changed_at (lists_of edges.old.items spans.old.items) place [] (λ es. es ++ edge ∷ [])) }
    ensures within { OnOk result (All (IsSpanWithin edges.new.items) spans.new.items) }
{
    let span = last_span(edges, spans[place])?;
    edges.push(edge)?;
    spans[place] = Span {
        from: span.from,
        to: span.to + 1,
    };
    Ok(())
}

/// The place of edges once they are the last ones: they are moved behind the others if they aren't.
#[inline(always)]
fn last_span(edges: &mut Vec<Edge>, span: Span) -> Result<Span, NoMemory>
    requires within { IsSpanWithin edges.old.items span }
    ensures added { OnOk result (IsPrefix edges.old.items edges.new.items) }
    ensures same { IfOk result (λ s. in_span edges.new.items s ≡ in_span edges.old.items span) }
    ensures last { IfOk result (λ s. (s.from ≤ s.to) × (s.to ≡ length edges.new.items)) }
{
    if span.to == edges.len() {
        return Ok(span);
    }
    let from = edges.len();
    for k in span.from..span.to {
        edges.push(edges[k])?;
    }
    Ok(Span {
        from,
        to: edges.len(),
    })
}

/// The edge of an entry.
fn edge_of(ranks: u32, t: Triple) -> Edge
    requires { 0 < ranks }
    ensures { result ≡ edge_of ranks t }
{
    Edge {
        owner: t.j % ranks,
        to: t.j,
        weight: bits_of(t.v),
    }
}

/// Puts what the vertices at some places offer along their edges, place by place, in the place of
/// what `outgoing` held, whose memory is kept.
///
/// # Errors
///
/// `NoMemory` if there was none; `outgoing` may hold anything then.
pub fn put_offers(
    outgoing: &mut Vec<(u32, Item)>,
    table: &Table,
    vertices: &Vertices,
    places: &[u32],
) -> Result<(), NoMemory>
    requires edges { All (λ p. p < length table.now) places.now }
    requires weights { All (λ p. p < length vertices.now) places.now }
    ensures { OnOk result (outgoing.new.items ≡ offers_by_place table.now vertices.now places.now) }
{
    outgoing.clear();
    outgoing.reserve(edges_at(table, places))?;
    for place in places {
        if let Some(weight) = vertices.weight(*place) {
            offer_all(outgoing, weight, table.at(*place))?;
        }
    }
    Ok(())
}

/// How many edges there are at some places.
fn edges_at(table: &Table, places: &[u32]) -> usize
    requires { All (λ p. p < length table.now) places.now }
{
    let mut count = 0usize;
    for place in places {
        count = count.saturating_add(table.at(*place).len());
    }
    count
}

/// Appends what a vertex with a weight offers along its edges. Room is looked for once for them
/// all.
fn offer_all(outgoing: &mut Vec<(u32, Item)>, weight: u64, edges: &[Edge]) -> Result<(), NoMemory>
    ensures { OnOk result (outgoing.new.items ≡ outgoing.old.items ++ map (offer weight) edges.now) }
{
    outgoing.reserve(edges.len())?;
    for edge in edges {
        let item = Item {
            a: edge.to as u64,
            b: weight.wrapping_add(edge.weight),
            c: 0,
        };
        outgoing.push_reserved((edge.owner, item));
    }
    Ok(())
}
