//! What is new of the links of a node, and what of its script is due.
ghost use Rattle.std.specs.Prelude.{◌≡◌, ◌++◌, true, IfOk, List, OnErr, OnOk};
ghost use Rattle.bsc_node_run.specs.Halts.{CountsWrites};
ghost use Rattle.bsc_node_run.specs.Handling.{BrokeOff, IsSameHand, Went};
ghost use Rattle.bsc_node_run.specs.declared.due.Due.{Due as DueType};
ghost use Rattle.bsc_node_run.specs.declared.news.News.{News as NewsType};
ghost use Rattle.bsc_node_run.specs.Requests.{has_octets};
ghost use Rattle.bsc_node_run.specs.Stopping.{LinesStop, NewsStop};
ghost use Rattle.bsc_node_run.specs.Turning.{AreDue, GivesLines, GivesNews, IsNotDue, event_of};
ghost use Rattle.bsc_node_run.specs.Worlds.{dialling};

use crate::due::Due;
use crate::halt::Halt;
use crate::in_hand::InHand;
use crate::news::{Change, News};
use crate::node_core::Core;
use crate::turn_context::TurnContext;
use crate::words::Words;
use bsc_edge::{Dialer, Link};
use bsc_node::NodeEvent;
use bsc_outside::Sink;

/// What a node is told of what is new.
fn event_of(news: News) -> NodeEvent
    ensures octets { has_octets result ≡ true }
    ensures is { result ≡ event_of news }
{
    match news.change {
        Change::Opened => NodeEvent::Opened(news.link),
        Change::DialFailed => NodeEvent::DialFailed(news.link),
        Change::Lost => NodeEvent::Lost(news.link),
    }
}

impl<N: Core, K: Sink, W: Words, L: Link + Drop, D: Dialer<L>> InHand<
    '_,
    '_,
    '_,
    '_,
    '_,
    N,
    K,
    W,
    L,
    D,
> {
    /// Tells the node what is new of its links, the oldest first.
    pub(crate) fn give_news(&mut self, at: TurnContext) -> Result<(), Halt>
        ensures gives { OnOk result (Went N.goes W.gives W.faults L.talk (dialling D.calls D.left D.came D.faults) K.held
            (λ goes talk n w m v. (news : List NewsType) × GivesNews goes talk at.time news n w m v) self.old self.new) }
        ensures stops { OnErr result (BrokeOff N.goes W.gives W.faults L.talk (dialling D.calls D.left D.came D.faults) K.held
            (λ goes talk n w v. (news : List NewsType) × NewsStop goes talk at.time news n w v) self.old self.new) }
        ensures counts { CountsWrites result (K.faults self.old.sink.now) (K.faults self.new.sink.now) }
        ensures same { IsSameHand self.old self.new }
    {
        while let Some(news) = {
            let set = &mut *self.set;
            set.due.pop_front()
        } {
            self.dispatch(at, &event_of(news))?;
        }
        Ok(())
    }

    /// Tells the node what is to be told by now, and gives what isn't.
    pub(crate) fn give_due<'b>(
        &mut self,
        at: TurnContext,
        script: &'b [Due],
    ) -> Result<&'b [Due], Halt>
        ensures gives { IfOk result (λ rest. Went N.goes W.gives W.faults L.talk (dialling D.calls D.left D.came D.faults) K.held
            (λ goes talk n w m v. (lines : List DueType) × (script.now ≡ lines ++ rest.now) × AreDue at.passed lines
            × IsNotDue at.passed rest.now × GivesLines goes talk at.time lines n w m v) self.old self.new) }
        ensures stops { OnErr result (BrokeOff N.goes W.gives W.faults L.talk (dialling D.calls D.left D.came D.faults) K.held
            (λ goes talk n w v. (lines rest : List DueType) × (script.now ≡ lines ++ rest) × AreDue at.passed lines
            × LinesStop goes talk at.time lines n w v) self.old self.new) }
        ensures counts { CountsWrites result (K.faults self.old.sink.now) (K.faults self.new.sink.now) }
        ensures same { IsSameHand self.old self.new }
    {
        let mut left = script;
        while let [due, rest @ ..] = left {
            if at.passed < due.at {
                return Ok(left);
            }
            self.dispatch(at, &due.event)?;
            left = rest;
        }
        Ok(left)
    }
}
