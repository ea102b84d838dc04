// A line for each point, each output at rest and each constraint. Names of other points are taken from lists of all names.
ghost use Rattle.std.specs.Prelude.{ℕ, ◌^◌, ◌≤◌, ◌<◌, [], get_or};
ghost use Rattle.scan.specs.Set.{most_reads, most_outputs, most_constraints, no_constraint};
ghost use Rattle.scan.specs.Names.{name_bytes};
ghost use Rattle.text.specs.Text.{output_line, named_reads, parted, lines_text};
ghost use Rattle.text.specs.way.Page.{Put};
ghost use Rattle.text.specs.way.Place.{line_bytes, outputs_bytes, past_bytes, read_line_by, reads_bytes, rest_if, rests_bytes, never_line_by, constraints_bytes};

use super::page::Page;
use scan::{
    Constraint, Kind, MOST_CONSTRAINTS, MOST_OUTPUTS, MOST_READS, NAME_PLACES, OutputPoint,
    ReadPoint,
};
use words::bit16;

impl<'a> Page<'a> {
    // The line of an output.
    #[inline(always)]
    fn put_output(&mut self, p: OutputPoint)
        ensures { Put self.old (line_bytes (output_line p)) self.new }
    {
        let name = p.name;
        self.put_bytes(b"output");
        self.put_name(name);
        self.put_byte(0x0A);
    }

    // The lines of the outputs. Each kind has a line of its own, made of other names, so that one function for all would only pass that in.
    #[inline(always)]
    pub fn put_outputs(&mut self, outputs: [OutputPoint; MOST_OUTPUTS], n: usize)
        requires { n ≤ most_outputs }
        ensures { Put self.old (outputs_bytes outputs n) self.new }
    {
        for j in 0..n {
            self.put_output(outputs[j]);
        }
    }

    // `past`, the name, `of`, and the name of point k.
    #[inline(always)]
    fn put_past(&mut self, name: [u8; NAME_PLACES], names: &[[u8; NAME_PLACES]], k: usize)
        ensures { Put self.old (past_bytes name (get_or names.now k [])) self.new }
    {
        self.put_bytes(b"past");
        self.put_name(name);
        self.put_word(b"of");
        self.put_name_at(names, k);
    }

    // The words of a read point.
    #[inline(always)]
    fn put_kind(&mut self, p: ReadPoint, reads: &[[u8; NAME_PLACES]], outputs: &[[u8; NAME_PLACES]])
        ensures { Put self.old (parted (read_line_by reads.now outputs.now p)) self.new }
    {
        let kind = p.kind;
        let name = p.name;
        match kind {
            Kind::Sensor => {
                self.put_bytes(b"sensor");
                self.put_name(name);
            }
            Kind::PastOutput(i) => self.put_past(name, outputs, i as usize),
            Kind::PastSensor(i) => self.put_past(name, reads, i as usize),
        }
    }

    // The line of a read point.
    #[inline(always)]
    fn put_read(&mut self, p: ReadPoint, reads: &[[u8; NAME_PLACES]], outputs: &[[u8; NAME_PLACES]])
        ensures { Put self.old (line_bytes (read_line_by reads.now outputs.now p)) self.new }
    {
        self.put_kind(p, reads, outputs);
        self.put_byte(0x0A);
    }

    // The lines of the read points.
    #[inline(always)]
    pub fn put_reads(
        &mut self,
        points: [ReadPoint; MOST_READS],
        r: usize,
        reads: &[[u8; NAME_PLACES]],
        outputs: &[[u8; NAME_PLACES]],
    )
        requires { r ≤ most_reads }
        ensures { Put self.old (reads_bytes reads.now outputs.now points r) self.new }
    {
        for k in 0..r {
            self.put_read(points[k], reads, outputs);
        }
    }

    // The line of output k, if it is on at rest.
    #[inline(always)]
    fn put_rest(&mut self, on: bool, outputs: &[[u8; NAME_PLACES]], k: usize)
        ensures { Put self.old (lines_text (rest_if on (name_bytes (get_or outputs.now k [])))) self.new }
    {
        if on {
            self.put_bytes(b"rest");
            self.put_name_at(outputs, k);
            self.put_byte(0x0A);
        }
    }

    // The lines of the outputs whose bits are set in the rest word.
    #[inline(always)]
    pub fn put_rests(&mut self, rest: u16, outputs: &[[u8; NAME_PLACES]])
        ensures { Put self.old (rests_bytes outputs.now rest) self.new }
    {
        for k in 0..MOST_OUTPUTS {
            self.put_rest(bit16(k, rest), outputs, k);
        }
    }

    // The line of a constraint.
    #[inline(always)]
    fn put_constraint(
        &mut self,
        c: Constraint,
        reads: &[[u8; NAME_PLACES]],
        outputs: &[[u8; NAME_PLACES]],
    )
        requires { named_reads c < 2 ^ most_reads }
        ensures { Put self.old (line_bytes (never_line_by reads.now outputs.now c)) self.new }
    {
        self.put_bytes(b"never");
        self.put_read_literals(c, reads);
        self.put_output_literals(c, outputs);
        self.put_byte(0x0A);
    }

    // The lines of the constraints.
    #[inline(always)]
    pub fn put_constraints(
        &mut self,
        constraints: [Constraint; MOST_CONSTRAINTS],
        m: usize,
        reads: &[[u8; NAME_PLACES]],
        outputs: &[[u8; NAME_PLACES]],
    )
        requires { (m ≤ most_constraints) × ((i : ℕ) → i < m → named_reads (get_or constraints i no_constraint) < 2 ^ most_reads) }
        ensures { Put self.old (constraints_bytes reads.now outputs.now constraints m) self.new }
    {
        for i in 0..m {
            self.put_constraint(constraints[i], reads, outputs);
        }
    }
}
