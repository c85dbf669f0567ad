// What can be asked of a graph in a memory: its edges, and the total of an assignment.
ghost use Rattle.std.specs.Prelude.{◌≡◌};
ghost use Rattle.std.specs.List.{list_all};
ghost use Rattle.graphs.specs.Masks.{members_from};
ghost use Rattle.graphs.specs.Model.{LowestJoined};
ghost use Rattle.graphs.specs.Edges.{EdgesByRule};
ghost use Rattle.graphs.specs.Asked.{edges_asked, has_pick, total_asked};
ghost use Rattle.graphs.specs.Stored.{model_of};
ghost use Rattle.graphs.specs.Unread.{Unread};

use crate::graph::Graph;
use crate::index::Variable;
use crate::priced::Priced;
use prices::Price;

impl Graph {
    // Whether each present variable has a choice in the picks.
    fn is_assignment(&self, picks: &[u8; 12]) -> bool
        ensures { result ≡ list_all (has_pick self.now picks.now) (members_from self.now.present 0) }
    {
        Variable::all().all(|v| !self.has(v) || usize::from(picks[v.number()]) < self.count(v))
    }

    // The edges of each of the twelve variables; none where the memory has no room for a graph.
    #[tactic(auto, using(crate::specs::Joining::edges_by_rule))]
    pub fn edges<P: Price>(&self, memory: &[P]) -> Option<[u16; 12]>
        ensures value { result ≡ edges_asked P.Price self.now memory.now }
        ensures rule { EdgesByRule P.Price (model_of P.Price self.now memory.now) }
    {
        Some(Priced::new(self, memory)?.edge_masks())
    }

    // The total of the picks; none where they are no assignment, or the memory has no room for a graph.
    pub fn total<P: Price>(&self, memory: &[P], picks: &[u8; 12]) -> Option<P>
        ensures value { result ≡ total_asked P.Price self.now memory.now picks.now }
        ensures lowest { LowestJoined P.Price (model_of P.Price self.now memory.now) }
        ensures unread { Unread P.Price }
    {
        let priced = Priced::new(self, memory)?;
        if !self.is_assignment(picks) {
            return None;
        }
        Some(priced.summed(picks))
    }
}
