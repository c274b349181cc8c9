// The interpolation: a cubic between the window's middle samples.
ghost use Rattle.std.specs.Prelude.{◌≡◌};
ghost use Rattle.resampling.specs.Filter.{hermite_at};
ghost use Rattle.resampling.specs.FilterRep.{window_of};

pub fn hermite(w: [f64; 4], t: f64) -> f64
    ensures { result ≡ hermite_at (window_of w) t }
{
    let y0 = w[0];
    let y1 = w[1];
    let y2 = w[2];
    let y3 = w[3];
    let c0 = y1;
    let c1 = 0.5 * (y2 - y0);
    let c2 = y0 - 2.5 * y1 + 2.0 * y2 - 0.5 * y3;
    let c3 = 0.5 * (y3 - y0) + 1.5 * (y1 - y2);
    ((c3 * t + c2) * t + c1) * t + c0
}
