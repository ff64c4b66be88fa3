// The lines of a print, each written behind the text that it has so far.
ghost use Rattle.std.specs.Prelude.{◌≡◌, ◌+◌, ◌≤◌, length, get_or};
ghost use Rattle.base.specs.Decimal.{decimal};
ghost use Rattle.base.specs.Numbers.{refusal_number};
ghost use Rattle.report.specs.Text.{field, call_line, last_line, refused_line, call_lines};
ghost use Rattle.report.specs.Put.{Blank, Put, CallsGiven};
ghost use Rattle.report.specs.Report.{printed};

use crate::Printed;
use base::Refusal;
use dispatch::ServedDay;

// Not by std's `write!`: none of its clauses says that it ends in `Ok` where there is room.
impl Printed {
    // Bytes behind the text.
    fn put(&mut self, bytes: &[u8])
        requires { self.old.length + length bytes.now ≤ 32768 }
        ensures { Put bytes.now self.old.text self.old.length self.new.text self.new.length }
    {
        let start = self.length;
        let end = start + bytes.len();
        self.text[start..end].copy_from_slice(bytes);
        self.length = end;
    }

    // A number in decimal.
    fn put_number(&mut self, n: u64)
        requires { self.old.length + 20 ≤ 32768 }
        ensures { Put (decimal n) self.old.text self.old.length self.new.text self.new.length }
    {
        let mut digits = [0; 20];
        let start = itoa::write_digits(n, &mut digits, 20);
        self.put(&digits[start..]);
    }

    // A word, and a number behind it.
    fn put_field(&mut self, word: &[u8], n: u64)
        requires { self.old.length + (length word.now + 20) ≤ 32768 }
        ensures { Put (field word.now n) self.old.text self.old.length self.new.text self.new.length }
    {
        self.put(word);
        self.put_number(n);
    }

    // The line of a call.
    fn put_call(&mut self, i: u64, crane: u64, metres: u64, least: u64)
        requires { self.old.length + 108 ≤ 32768 }
        ensures { Put (call_line i crane metres least) self.old.text self.old.length self.new.text self.new.length }
    {
        self.put_field(b"call ", i);
        self.put_field(b" crane ", crane);
        self.put_field(b" metres ", metres);
        self.put_field(b" least ", least);
        self.put(b"\n");
    }

    // The lines of the calls of a served day, from the front.
    pub(crate) fn put_calls(&mut self, served: &ServedDay)
        requires { CallsGiven self.old.length served.now.calls }
        ensures { Put (call_lines served.now.calls (λ i. get_or served.now.cranes i 0) (λ i. get_or served.now.metres i 0) (λ i. get_or served.now.leasts i 0)) self.old.text 0 self.new.text self.new.length }
    {
        for i in 0..served.calls {
            self.put_call(
                i as u64,
                u64::from(served.cranes[i]),
                u64::from(served.metres[i]),
                served.leasts[i],
            );
        }
    }

    // The line behind those of the calls.
    pub(crate) fn put_last(&mut self, driven: u64, home: u64, floor: u64)
        requires { self.old.length + 81 ≤ 32768 }
        ensures { Put (last_line driven home floor) self.old.text self.old.length self.new.text self.new.length }
    {
        self.put_field(b"driven ", driven);
        self.put_field(b" home ", home);
        self.put_field(b" floor ", floor);
        self.put(b"\n");
    }

    // The line of a refusal, where there is no text before it.
    pub(crate) fn put_refused(&mut self, refusal: Refusal, index: usize)
        requires { Blank self.old }
        ensures { self.new ≡ printed (refused_line (refusal_number refusal) index) }
    {
        self.put_field(b"refused ", u64::from(u8::from(refusal)));
        self.put_field(b" record ", index as u64);
        self.put(b"\n");
    }
}
