// What stands after the events where a trace is good to its end (rule 14.2): `end` and the clock, then a line for each server and for each task. Each
// method is given room for the longest text that it can write.
ghost use Rattle.std.specs.Prelude.{◌≡◌, ◌*◌, ◌≤◌, length};
ghost use Rattle.laws.specs.Loops.{join_to};
ghost use Rattle.model.specs.State.{places};
ghost use Rattle.listing.specs.Text.{phase_word, phase_most, short_line_most, server_line_most, end_lines_most};
ghost use Rattle.listing.specs.Listing.{server_text, server_line, task_text, task_line, end_lines};
ghost use Rattle.listing.specs.Writer.{HasRoom, Writes};

use crate::writer::Writer;
use model::entries::in_use;
use model::{Phase, Server, State};

impl Writer<'_> {
    // An arm for each word, and no function that gives the word: of four words the compiler makes a table of pointers, which is data that a loader has to
    // write, and the static library has none.
    #[tactic(auto, unfolding(crate::specs::Text::phase_word, lent_bytes::specs::Text::bytes))]
    fn put_phase(&mut self, phase: Phase)
        requires { HasRoom self.old phase_most }
        ensures { Writes phase_most self.old (phase_word phase) self.new }
    {
        match phase {
            Phase::Idle => self.put_text(b"idle"),
            Phase::Active => self.put_text(b"active"),
            Phase::Running => self.put_text(b"running"),
            Phase::Recharging => self.put_text(b"recharging"),
        }
    }

    fn put_server(&mut self, s: usize, server: Server)
        requires { HasRoom self.old server_line_most }
        ensures { Writes server_line_most self.old (server_text s server) self.new }
    {
        self.put_named(b"server", s);
        self.put_text(b" ");
        self.put_phase(server.phase);
        self.put_field(server.budget as usize);
        self.put_field(server.deadline as usize);
        self.put_field(server.own as usize);
        self.put_field(server.lent as usize);
        self.put_field(server.spin as usize);
        self.put_text(b"\n");
    }

    // The lines of the servers in use.
    fn put_servers(&mut self, st: &State)
        requires { HasRoom self.old (places * server_line_most) }
        ensures { Writes (places * server_line_most) self.old (join_to places (server_line st.now)) self.new }
    {
        for (s, server) in st.server.iter().enumerate() {
            if in_use(st.tasks, s) {
                self.put_server(s, *server);
            }
        }
    }

    #[tactic(auto, unfolding(lent_bytes::specs::Text::bytes))]
    fn put_task(&mut self, t: usize, executed: u32)
        requires { HasRoom self.old short_line_most }
        ensures { Writes short_line_most self.old (task_text t executed) self.new }
    {
        self.put_line(b"task", t, executed as usize);
    }

    // The lines of the tasks in use. It stays beside `put_servers`: one function of both would be generic over a trait with a line's text and its longest
    // length, and would be longer than the two loops.
    fn put_tasks(&mut self, st: &State)
        requires { HasRoom self.old (places * short_line_most) }
        ensures { Writes (places * short_line_most) self.old (join_to places (task_line st.now)) self.new }
    {
        for (t, task) in st.task.iter().enumerate() {
            if in_use(st.tasks, t) {
                self.put_task(t, task.executed);
            }
        }
    }

    // The whole close of a listing.
    pub(crate) fn put_end(&mut self, st: &State)
        requires { HasRoom self.old end_lines_most }
        ensures { Writes end_lines_most self.old (end_lines st.now) self.new }
    {
        self.put_named(b"end", st.clock as usize);
        self.put_text(b"\n");
        self.put_servers(st);
        self.put_tasks(st);
    }
}
