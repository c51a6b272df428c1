//! The service with dates.
ghost use Rattle.std.specs.Prelude.{◌≡◌, IfOk};
ghost use Rattle.http_server.specs.declared.response.Response.{Response};
ghost use Rattle.service_layers.specs.Date.{Dates, fields_in};
ghost use Rattle.service_layers.specs.Dated.{Stands, dated, dated_stays, looked_stays};

use crate::date::{DateField, second_of};
use crate::{Recording, Times, Traffic};
use bytes::Bytes;
use http::Request;
use http_server::{Response, Service};
use std::alloc::{AllocError, Global};
use std::io;
use std::time::{Clock, Instant};

/// A service whose answers have their date, and of which is counted how long they take.
#[derive(Drop)]
pub struct Dated<'a, R, S> {
    rt: &'a R,
    alloc: Global,
    traffic: &'a Traffic,
    times: Times,
    date: DateField,
    service: S,
}

impl<'a, R: Clock, S: Drop> Dated<'a, R, S> {
    /// A service with dates, whose times are added up in `traffic`.
    pub fn new(
        rt: &'a R,
        alloc: Global,
        traffic: &'a Traffic,
        service: S,
    ) -> Result<Dated<'a, R, S>, AllocError>
        ensures { IfOk result (λ dated. dated.service ≡ service) }
    {
        let date = DateField::of(alloc, second_of(rt))?;
        Ok(Dated {
            rt,
            alloc,
            traffic,
            times: Times::new(),
            date,
            service,
        })
    }
}

impl<R: Clock, S> Dated<'_, R, S> {
    /// Counts an answer that began then.
    fn count_time(&mut self, begun: io::Result<Instant>)
        ensures date { self.new.date ≡ self.old.date }
        ensures service { self.new.service ≡ self.old.service }
    {
        let Ok(begun) = begun else {
            return;
        };
        let Ok(now) = Instant::now(self.rt) else {
            return;
        };
        self.times.count(now.duration_since(begun));
    }

    /// Takes the date of another second, where it is another. Where memory runs out it keeps that which it has.
    fn renew_date(&mut self)
        ensures { self.new.service ≡ self.old.service }
    {
        let second = second_of(self.rt);
        if second == self.date.second {
            return;
        }
        if let Ok(date) = DateField::of(self.alloc, second) {
            self.date = date;
        }
    }
}

impl<R: Clock, S: Service> Service for Dated<'_, R, S> {
    ghost answers = { λ old request response new.
        (new.date ≡ old.date) × ((given : Response) × S.answers old.service request given new.service × Dates (fields_in old.date.value) given response) };

    fn call(
        &mut self,
        request: &Request<Bytes>,
        response: &mut Response,
    ) -> Result<(), AllocError> {
        let begun = Instant::now(self.rt);
        self.service.call(request, response)?;
        self.date.add_to(response);
        self.count_time(begun);
        Ok(())
    }
}

impl<R: Clock, S: Recording> Recording for Dated<'_, R, S> {
    ghost stands = { λ dated request response. Stands S.stands dated.service request response };

    ghost looked = { λ old new. S.looked old.service new.service };

    fn look(&mut self) {
        self.renew_date();
        self.traffic.add_times(&mut self.times);
        self.service.look();
    }

    ghost given = { λ old request response new is. dated S.answers S.stands S.given (fields_in old.date.value) old.service request response new.service is.1 };

    ghost stays = { λ old request response new is. dated_stays S.answers S.stands S.stays (fields_in old.date.value) old.service request response new.service is.1 };

    ghost looked_stays = { λ old new is. looked_stays S.looked S.stands S.looked_stays old.service new.service is };
}
