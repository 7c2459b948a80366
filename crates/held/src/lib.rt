// The writer of the list of rights held: how many there are, and then each as skid, tank, right, rising in that order.
// That s and o are below the record's counts is a clause and no type: s goes through three functions as it is, each has the record beside it, and a
// type of such a number would hold the record a second time.
#![tactic(auto)]

ghost use Rattle.std.specs.Prelude.{◌≡◌, [], ◌∷◌, ◌/◌, ◌<◌, ◌≤◌, length};
ghost use Rattle.base.specs.Overlay.{overlay};
ghost use Rattle.listing.specs.Work.{Known, right_bytes_in, tank_bytes_in, skid_bytes_in, skids_bytes_in, list_bytes_in};
ghost use Rattle.writer.specs.Writing.{Room, Writes};

use gates::is_held;
use plant::Right;
use rules::Monitor;
use writer::Writer;

fn put_right(list: &mut Writer, skid: u8, tank: u8, right: u8)
    requires { Room (skid ∷ tank ∷ right ∷ []) list.old }
    ensures { Writes (skid ∷ tank ∷ right ∷ []) list.old list.new }
{
    list.word(&[skid, tank, right]);
}

// A record whose rights are listed. The writer of the list is no field: a method that writes would have to promise that the record stays as it was,
// which is longer.
#[derive(Clone, Copy)]
struct Held<'a> {
    monitor: &'a Monitor,
    ghost known: { Known monitor.now },
}

impl<'a> Held<'a> {
    // Right r on tank o, if skid s holds it.
    fn write_right(&self, list: &mut Writer, s: u8, o: u8, r: u8)
        requires in_range { (s < self.now.monitor.now.plant.skids) × (o < self.now.monitor.now.plant.tanks) }
        requires room { Room (right_bytes_in self.now.monitor.now s o r) list.old }
        ensures { Writes (right_bytes_in self.now.monitor.now s o r) list.old list.new }
    {
        if is_held(self.monitor, usize::from(s), o, r) {
            put_right(list, s, o, r);
        }
    }

    // The rights on tank o in their order, so that the list rises.
    fn write_tank(&self, list: &mut Writer, s: u8, o: u8)
        requires in_range { (s < self.now.monitor.now.plant.skids) × (o < self.now.monitor.now.plant.tanks) }
        requires room { Room (tank_bytes_in self.now.monitor.now s o) list.old }
        ensures { Writes (tank_bytes_in self.now.monitor.now s o) list.old list.new }
    {
        for r in Right::all() {
            self.write_right(list, s, o, r);
        }
    }

    fn write_skid(&self, list: &mut Writer, s: u8)
        requires in_range { s < self.now.monitor.now.plant.skids }
        requires room { Room (skid_bytes_in self.now.monitor.now s) list.old }
        ensures { Writes (skid_bytes_in self.now.monitor.now s) list.old list.new }
    {
        for o in 0..self.monitor.plant.tanks {
            self.write_tank(list, s, o);
        }
    }

    fn write_skids(&self, list: &mut Writer)
        requires { Room (skids_bytes_in self.now.monitor.now) list.old }
        ensures { Writes (skids_bytes_in self.now.monitor.now) list.old list.new }
    {
        for s in 0..self.monitor.plant.skids {
            self.write_skid(list, s);
        }
    }
}

// The list from the buffer's first byte on. The count stands in front of the rights, three bytes each, and is known once they are written. That it is a byte
// is proved: `try_from` would answer with an error that there cannot be.
pub fn write_held(m: &Monitor, out: &mut [u8])
    requires known { Known m.now }
    requires in_bounds { 577 ≤ length out.old }
    ensures { out.new ≡ overlay out.old 0 (list_bytes_in m.now) }
{
    let (count, rights) = out.split_at_mut(1);
    let mut list = Writer::new(rights);
    let held = Held { monitor: m };
    held.write_skids(&mut list);
    let bytes = list.end();
    count[0] = (bytes / 3) as u8;
}
