//! The page's script: the lists, the timeline, and moving through the run.

/// What is beside the picture, and the end of the page.
pub(crate) const LISTS: &[u8] = br##"// ---- the lists beside it
let picked = null, pos = -1, follow = 0;
function choose(p) { picked = p; if (p) pause(); show(); }
const evButton = (n, text) => el('button', {class: 'ev' + (n === pos ? ' cur' : ''), on: () => go(n)}, text || String(no(n)));
const tokButton = (t, cls, text) => el('button', {class: 'chip ' + cls + (picked && picked.t === t ? ' sel' : ''), title: word(carries(tokenOf(t))),
    on: () => choose({t: t})}, text || brief(carries(tokenOf(t)), 16));
function eventsOf(has) { const list = []; for (let n = 0; n < N; n++) if (has(n)) list.push(n); return list; }
function info(n) {
  const box = $('info');
  box.hidden = !picked;
  if (!picked) return;
  const close = el('button', {style: 'float:right', 'aria-label': 'Close', on: () => choose(null)}, '\u2715');
  if (picked.t !== undefined) {
    const t = picked.t, T = tokenOf(t), m = MADE[t], k = TAKEN[t];
    fill(box, close, el('h2', {}, 'Token ' + numberOf(t)), el('div', {}, el('b', {}, word(carries(T))), ' for ' + whereTo(T, -1) + '.'),
      el('div', {}, m < 0 ? D.first ? 'It was made before event ' + D.first + '.' : 'It was there at the start.' : ['Made by ', evButton(m, 'event ' + no(m)), ' ', el('span', {class: 'none'}, doing(m))]),
      el('div', {}, k === LATER ? 'It is never taken.' : ['Taken by ', evButton(k, 'event ' + no(k)), ' ', el('span', {class: 'none'}, doing(k))]));
    return;
  }
  const c = CODE[picked.ip], spot = c && text && text.of[c.ip], list = picked.of.list = picked.of.list || eventsOf(picked.of.has);
  let a = 0, b = list.length;
  while (a < b) { const q = (a + b) >> 1; if (list[q] < n) a = q + 1; else b = q; }
  const from = Math.max(0, a - 30), to = Math.min(list.length, from + 60);
  fill(box, close, el('h2', {}, c ? c.b + '.' + c.k + ' ' + c.name + ' ' + c.op : picked.of.name),
    c ? [HELP[c.name] ? el('div', {class: 'none'}, HELP[c.name]) : '',
    el('div', {}, 'goes to: ', c.d.filter(d => d).map(d => name(d.ip) + ' (' + at(d.ip) + '), ' + SIDE[d.port]).join('; ') ||
        'no instruction of its block', c.slot === null ? '' : '; slot ' + c.slot),
    spot ? el('div', {}, 'made for ', el('button', {class: 'ev', on: () => showFound(ofSpot(spot), spot)}, spot.name)) : ''] : picked.spot ? spotInfo(picked.spot, n) : '',
    el('div', {style: 'margin-top:.3rem'}, many(list.length, 'event'), list.length ? ': ' : '.', from ? '\u2026 ' : '',
        list.slice(from, to).map(x => evButton(x, no(x) + ' \u00b7 ' + (c ? 'frame ' + TO[TAKES[x]] : verb(x)))), to < list.length ? ' \u2026' : ''));
}
const VERBS = {[READ]: 'read', [WRITE]: 'write', [BACK]: 'freed', [HOST]: 'host', [QUEUED]: 'request'};
const verb = n => ipOf(n) >= 0 ? name(ipOf(n)) : VERBS[TYPE[TAKES[n]]];

// ---- finding: the next and the last event of something. Something has a name, and a test of an event or a text that stands in its line.
const ofInstruction = ip => ({name: name(ip) + ' (' + at(ip) + ')', has: n => ipOf(n) === ip});
const ofFunction = b => ({name: bname(BLOCKS[b]), has: n => ipOf(n) >= 0 && CODE[ipOf(n)] && CODE[ipOf(n)].b === b});
const isAtCell = n => { const type = TYPE[TAKES[n]]; return type === READ || type === WRITE; };
const ofCell = x => ({name: 'cell ' + cell(x), has: n => isAtCell(n) && TO[TAKES[n]] === x});
const ofFrame = f => ({name: 'frame ' + f, has: n => {
  const t = TAKES[n], c = K + n;
  return ((TYPE[t] === INSTR || TYPE[t] === BACK) && TO[t] === f) || ((TAG[c] === OUT || TAG[c] === HANDED) && PLACE[c] === f);
}});
function something(w) {  // what these words name
  const m = /^(.*?)(?:\[| |\.)(\d+)\]?$/.exec(w), k = m && +m[2], array = m && ARRAYS.find(a => a.name === m[1] || a.name === 'array ' + m[1]);
  const block = BLOCKS.find(b => b.name === w || b.was === w);
  if (block) return ofFunction(block.n);
  if (/\]$/.test(w)) return array && k < array.len ? ofCell(array.base + k) : null;
  if (m && m[1] === 'frame') return k < D.frames ? ofFrame(k) : null;
  if (m && m[1] === 'block') return BLOCKS[k] ? ofFunction(k) : null;
  if (m && m[1] === 'line' && text) return k && k <= text.lines.length ? ofLine(k) : null;
  if (m && m[1] === 'cell') return k < CELLS ? ofCell(k) : null;
  if (m && m[1] === 'output') return {name: w, has: n => TYPE[TAKES[n]] === HOST && TO[TAKES[n]] === k};
  if (/^\d+\.\d+$/.test(w)) return BLOCKS[m[1]] && BLOCKS[m[1]].code[k] ? ofInstruction(BLOCKS[m[1]].first + k) : null;
  if (HELP[w] || CODE.some(i => i.name === w)) return {name: w, has: n => ipOf(n) >= 0 && name(ipOf(n)) === w};
  return /^-?\d+$/.test(w) ? {name: 'the value ' + w, text: ':' + w} : /^fault/.test(w) ? {name: w, text: ':' + w, open: true} : null;
}
function seek(of, n, by) {  // the first event of it from event n on, upwards or downwards; -1 where there is none
  if (n < 0 || n >= N) return -1;
  if (!of.text) { while (n >= 0 && n < N && !of.has(n)) n += by; return n < N ? n : -1; }
  let k = by > 0 ? LINE[K + n] : LINE[K + n + 1] - 4;
  do k = by > 0 ? TEXT.indexOf(of.text, k + 1) : k > 0 ? TEXT.lastIndexOf(of.text, k - 1) : -1;
  while (k >= 0 && !of.open && !/[;:"]/.test(TEXT[k + of.text.length]));
  let a = 0, b = N - 1;
  while (a < b) { const m = (a + b + 1) >> 1; if (LINE[K + m] <= k) a = m; else b = m - 1; }
  return k < LINE[K] ? -1 : a;
}
let found = null, lastIp = START ? IP[0] : -1, lastCell = -1;  // what the box found; the last instruction and cell of which an event was shown
function same(n) {  // of what the next and the last event are wanted
  const what = $('same').value;
  if (what === 'found') return found;
  if (what === 'frame') return ofFrame($('fsel').value === 'f' ? follow : frameOf(n));
  if (what === 'cell') return lastCell < 0 ? {name: 'any cell', has: isAtCell} : ofCell(lastCell);
  if (what === 'spot') return text && text.of[lastIp] ? ofSpot(text.of[lastIp]) : null;
  return !CODE[lastIp] ? null : what === 'function' ? ofFunction(CODE[lastIp].b) : ofInstruction(lastIp);
}
const tell = text => { $('told').textContent = text; };
function sameStep(by) {
  pause();
  const of = same(pos), n = of ? seek(of, pos + by, by) : -1;
  if (n >= 0) go(n);
  tell(!of ? 'Nothing was found yet.' : n >= 0 ? of.name : 'No ' + (by > 0 ? 'later' : 'earlier') + ' event of ' + of.name + '.');
}
function find() {
  const w = $('find').value.trim(), of = w && something(w);
  if (!w) { tell(''); return; }
  if (of) showFound(of); else tell('Nothing here is called \u201c' + w + '\u201d.');
}
function showFound(of, spot) {  // its next event, or else the first
  found = of; $('same').value = 'found'; pause();
  let n = seek(of, pos + 1, 1);
  if (n < 0) n = seek(of, 0, 1);
  if (of.has) picked = {of: of, spot: spot};
  if (n >= 0) go(n); else show();
  tell(n < 0 ? 'No event of ' + of.name + '.' : of.name + (of.has ? ': ' + many(of.list.length, 'event') : ''));
}
const isQuiet = n => $('brief').checked && ipOf(n) >= 0 && CODE[ipOf(n)] && CODE[ipOf(n)].quiet;
function nextOf(n, by) { n += by; while (n >= 0 && n < N && isQuiet(n)) n += by; return n; }
function step(by) { pause(); go(nextOf(pos, by)); }
function doing(n) { const t = takenBy(n); return t[0] === 'i' ? name(t[2]) + ' (' + at(t[2]) + '), frame ' + t[1] : whereTo(t, -1); }
function lists(n, s, pool, f) {
  const c = n < 0 ? null : changeOf(K + n), t0 = n < 0 ? -1 : TAKES[n], hit = k => c && c[0] === 's' && skey(c[1], c[2]) === k;
  const asked = (c, text) => c < K ? el('span', {class: 'chip wait'}, text) : tokButton(TAKES[c - K], 'wait', text);
  const outs = [];
  for (let p = 0; p <= BLOCKS[MAIN].outs; p++) {
    const o = s.outs.get(p), w = o === undefined ? '' : changeOf(o)[2], done = p === BLOCKS[MAIN].outs;
    outs.push(el('span', {style: 'margin-right:1rem'}, done ? 'done ' : 'output ' + p + ' ', w ?
        el('span', {class: 'chip ' + (o === K + n ? 'new' : ''), title: w}, done ? 'yes' : w) : el('span', {class: 'none'}, '\u2013')));
  }
  fill($('outs'), outs);
  // frames
  const used = [...s.out.keys()].sort((a, b) => a - b), cards = [], by = new Map();
  $('fcount').textContent = used.length + ' in use, ' + (D.frames - used.length).toLocaleString('en') + ' free';
  const near = used.length <= 24 ? used : [f].filter(x => s.out.has(x)).concat(used.filter(x => x !== f).slice(0, 11));
  for (const fr of near) by.set(fr, []);
  s.slots.forEach((v, k) => { const list = by.get(Math.floor(k / 512)); if (list) list.push([k % 512, v]); });
  for (const fr of near) {
    const o = s.out.get(fr), b = blockOf(o, n), full = by.get(fr), slots = [], mine = new Map(full);
    const order = b && b.slots <= 20 ? [...Array(b.slots).keys()] : full.map(x => x[0]).sort((x, y) => x - y);
    if (c && c[0] === 's' && c[1] === fr && !order.includes(c[2])) order.push(c[2]);
    for (const r of order) {
      const v = mine.get(r), q = v === undefined ? null : stateOf(v), k = skey(fr, r), known = q && v >= K;
      slots.push(el(known ? 'button' : 'span', {class: 'slot' + (q ? ' full' : '') + (hit(k) ? ' hit' : ''), on: known ? () => choose({t: TAKES[v - K]}) :
          undefined, title: 'slot ' + r + ': ' + stands(q)}, el('small', {}, r), !q ? '' : q[0] === 'c' ? many(q[1], 'credit') : q[0] === 'w' ?
          'asks ' + short(q[1]) : q[0] === 'd' ? 'drain ' + q[1] : [brief(q[1], 14), ' ', el('small', {}, q[0])]));
    }
    cards.push(el('div', {class: 'frame' + (fr === f ? ' cur' : '')}, el('button',
        {title: 'Show this frame in the code', on: () => { $('fsel').value = 'f'; follow = fr; frameMenu(fr); show(); }}, 'frame ' + fr),
        el('span', {class: 'none'}, ' ' + (b ? bname(b) : o < K ? '' : 'just given') + (E > 1 ? ', element ' + fr % E : '')),
        el('div', {class: 'slots'}, slots.length ? slots : el('span', {class: 'none'}, 'all slots empty'))));
  }
  if (near.length < used.length) cards.push(el('div', {class: 'none'}, 'and ' + (used.length - near.length) + ' more frames'));
  fill($('frames'), cards.length ? cards : el('span', {class: 'none'}, 'No frame is in use.'));
  // arrays
  $('acard').hidden = !ARRAYS.length;
  const x0 = TYPE[t0] === READ || TYPE[t0] === WRITE ? TO[t0] : -1;
  fill($('cells'), ARRAYS.map(a => {
    const show = [], big = a.len > 64;
    if (big) { for (const x of s.cells.keys()) if (x >= a.base && x < a.base + a.len) show.push(x); show.sort((p, q) => p - q);
        if (show.length > 96) { let k = show.findIndex(x => x >= x0); k = x0 < 0 || k < 0 ? 0 : k; show.splice(k + 48);
        show.splice(0, Math.max(0, k - 48)); } } else for (let i = 0; i < a.len; i++) show.push(a.base + i);
    return [el('h3', {}, a.name + ', ' + many(a.len, 'cell') + (big ? ', those that are not empty:' : '')),
        el('div', {class: 'cells', style: 'margin-bottom:.4rem'}, show.map(x => {
      const v = s.cells.get(x), waits = v === undefined ? [] : readersOf(v), held = v === undefined || waits.length ? '' : changeOf(v)[2];
      const conts = waits.slice(-5).map(q => word(changeOf(q)[2]));
      const says = held || (waits.length ? many(waits.length, 'read') + ' waiting: ' + conts.join('; ') : 'empty');
      return el('button', {on: () => choose({of: ofCell(x)}), class: 'cell' + (held ? ' full' : waits.length ? ' readers' : '') +
          (x === x0 ? ' hit' : ''), title: cell(x) + ': ' + says}, el('small', {}, x - a.base), held || (waits.length ? many(waits.length, 'read waits', 'reads wait') : ''));
    }), show.length ? '' : el('span', {class: 'none'}, 'all empty'))];
  }));
  // requests
  const rq = [];
  for (let k = s.served; k < s.queued && rq.length < 12; k++) rq.push(el('li', {}, asked(REQ[k], 'frame'),
      el('span', {class: 'to'}, ' for ' + word(changeOf(REQ[k])[1]))));
  const credits = [];
  s.slots.forEach((v, k) => { if (HOLDS[v] === ASKS) credits.push(k); });
  const more = s.queued - s.served - rq.length + Math.max(0, credits.length - 12);
  for (const k of credits.sort((a, b) => a - b).slice(0, 12)) { const v = s.slots.get(k); rq.push(el('li', {}, asked(v, 'credit'),
      el('span', {class: 'to'}, ' for ' + word(stateOf(v)[1]) + ', in slot ' + (k % 512) + ' of frame ' + Math.floor(k / 512)))); }
  fill($('reqs'), rq.length ? el('ul', {class: 'list'}, rq, more > 0 ? el('li', {class: 'none'}, 'and ' + more + ' more') : '') :
      el('span', {class: 'none'}, 'No request waits for a frame or a credit.'));
  // tokens
  $('tcount').textContent = pool.length.toLocaleString('en');
  const nextT = n + 1 < N ? TAKES[n + 1] : -1, order = pool.slice(0, 24);
  if (nextT >= 0 && !order.includes(nextT)) order.unshift(nextT);
  fill($('toks'), order.map(t => el('li', {}, tokButton(t, MADE[t] === n ? 'new' : ''),
      el('span', {class: 'to'}, ' \u2192 ' + whereTo(tokenOf(t), -1) + (t === nextT ? '  \u25c0 next' : '')))), pool.length > order.length ?
      el('li', {class: 'none'}, 'and ' + (pool.length - order.length) + ' more') : '', pool.length ? '' : el('li', {class: 'none'}, 'None.'));
}
let menuOf = '';
function frameMenu(f) {
  const v = $('fsel').value || 'follow', want = v === 'f' ? 'frame ' + follow : 'one frame: ' + f;
  if (menuOf === v + f + want) return;
  menuOf = v + f + want;
  fill($('fsel'), el('option', {value: 'follow'}, 'of the event (' + f + ')'), el('option', {value: 'all'}, 'all frames'),
      el('option', {value: 'f'}, want));
  $('fsel').value = v;
}

// ---- the timeline
fill($('legend'), [['fired', 'fired'], ['waited', 'waits in a slot'], ['memory', 'a cell is read or filled'], ['defer', 'a read or a request waits'],
    ['manager', 'frames'], ['host', 'the host']].map(([k, s]) => el('span', {}, el('i', {style: 'background:var(--' + k + ')'}), s)),
    el('span', {}, 'above: tokens on their way, at most ' + TOP.toLocaleString('en')));
const cv = $('cv'), HC = 34, LANE = Math.max(5, Math.min(14, Math.floor(72 / E))), YL = HC + 4, YZ = YL + LANE * E + 26, ONE = E === 1 || E > 6,
    ZL = E === 1 ? 26 : ONE ? 38 : 20, HT = YZ + ZL * (ONE ? 1 : E) + 2, PADL = E > 1 ? 34 : 4;
let tlw = 0, back = null, backKey = '', win = {list: [], w: 1};
function around(n, count) {  // so many events around this one, without those that are left out
  const list = [], isShown = m => m === n || !isQuiet(m);
  let first = Math.max(n, 0), next = first;
  while (first > 0 && list.length < count >> 1) if (isShown(--first)) list.unshift(first);
  for (; next < N && list.length < count; next++) if (isShown(next)) list.push(next);
  while (first > 0 && list.length < count) if (isShown(--first)) list.unshift(first);
  return list;
}
// The waves: with elements without number each event would happen in the wave after those of the events that it needs. A bar for each wave, as high as it
// has events, by function; neighbours share one where there are too many, as high as the greatest of them.
const wv = $('wv'), HW = 62, WAVES = WAVE.reduce((a, b) => Math.max(a, b), 0), SIZE = new Int32Array(WAVES + 1), BEGIN = new Int32Array(WAVES + 1);
for (let m = N - 1; m >= 0; m--) { SIZE[WAVE[m]]++; BEGIN[WAVE[m]] = m; }
const HIGH = SIZE.reduce((a, b) => Math.max(a, b), 0), HUES = 7, codeOf = m => CODE[ipOf(m)];
const SHARES = BLOCKS.map(b => ({b: b, events: 0, hue: HUES}));  // of each function its events, and its colour: the last is of all others
for (let m = 0; m < N; m++) if (codeOf(m)) SHARES[codeOf(m).b].events++;
const inRun = SHARES.filter(s => s.events).sort((p, q) => q.events - p.events);
inRun.forEach((s, k) => { s.hue = Math.min(k, HUES); });
const hue = k => k > HUES ? 'hsl(0 0% 55%)' : k === HUES ? 'hsl(60 15% 45%)' : 'hsl(' + (215 + 137 * k) % 360 + ' 55% 52%)';
const hueOf = m => codeOf(m) ? SHARES[codeOf(m).b].hue : HUES + 1, swatch = k => el('i', {style: 'background:' + hue(k)});
fill($('wlegend'), el('span', {}, many(WAVES, 'wave') + (N ? ', at most ' + many(HIGH, 'event') + ' in one' : '')),
    inRun.slice(0, HUES).map((s, k) => el('span', {}, swatch(k), bname(s.b))), inRun.length > HUES ? el('span', {}, swatch(HUES), 'other functions') : '',
    inRun.reduce((n, s) => n - s.events, N) ? el('span', {}, swatch(HUES + 1), 'cells, frames and the host') : '');
let waveBack = null, waveKey = '';
function drawWaves(W, dpr, soft) {
  const IW = W - PADL - 4, cols = Math.min(Math.floor(IW), WAVES), c = waveBack.getContext('2d'), bar = IW / cols, top = new Int32Array(WAVES + 1).fill(-1);
  c.scale(dpr, dpr); c.fillStyle = soft; c.fillRect(PADL, 0, IW, HW);
  for (let x = 0; x < cols; x++) {  // the greatest wave of each column
    let best = 0;
    for (let w = Math.floor(x * WAVES / cols) + 1; w <= Math.floor((x + 1) * WAVES / cols); w++) if (SIZE[w] > SIZE[best]) best = w;
    top[best] = x;
  }
  const per = new Int32Array(cols * (HUES + 2));
  for (let m = 0; m < N; m++) if (top[WAVE[m]] >= 0) per[top[WAVE[m]] * (HUES + 2) + hueOf(m)]++;
  for (let x = 0; x < cols; x++) for (let k = 0, y = HW; k < HUES + 2; k++) {
    const h = per[x * (HUES + 2) + k] * (HW - 3) / HIGH;
    if (h) { y -= h; c.fillStyle = hue(k); c.fillRect(PADL + x * bar, y, bar > 3 ? bar - 1 : bar, h); }
  }
}
function waves(n) {
  const dpr = devicePixelRatio || 1, W = tlw, css = getComputedStyle(document.documentElement), soft = css.getPropertyValue('--soft').trim();
  wv.hidden = !WAVES;
  if (!WAVES || W < 50) return;
  if (waveKey !== W + '/' + dpr + '/' + soft) {
    waveKey = W + '/' + dpr + '/' + soft; wv.style.height = HW + 'px';
    waveBack = document.createElement('canvas'); waveBack.width = wv.width = Math.round(W * dpr); waveBack.height = wv.height = Math.round(HW * dpr);
    drawWaves(W, dpr, soft);
  }
  const c = wv.getContext('2d'), w = n < 0 ? 0 : WAVE[n], IW = W - PADL - 4;
  c.setTransform(1, 0, 0, 1, 0, 0); c.clearRect(0, 0, wv.width, wv.height); c.drawImage(waveBack, 0, 0); c.scale(dpr, dpr);
  c.fillStyle = css.getPropertyValue('--defer').trim(); c.fillRect(PADL + Math.max(0, w - .5) * IW / WAVES - 1, 0, 2, HW);
  wv.setAttribute('aria-valuemax', WAVES); wv.setAttribute('aria-valuenow', w);
  wv.setAttribute('aria-valuetext', w ? 'wave ' + w + ' of ' + WAVES + ': ' + many(SIZE[w], 'event') : 'start');
}
function goWave(w) { pause(); go(w < 1 ? -1 : BEGIN[Math.min(w, WAVES)]); }  // to the first event of a wave
wv.addEventListener('pointerdown', ev => {
  const r = wv.getBoundingClientRect();
  goWave(1 + Math.max(0, Math.floor((ev.clientX - r.left - PADL) * WAVES / (r.width - PADL - 4))));
});
wv.addEventListener('keydown', ev => {
  const by = ev.key === 'ArrowLeft' ? -1 : ev.key === 'ArrowRight' ? 1 : 0;
  if (!by || ev.ctrlKey || ev.metaKey || ev.altKey) return;
  ev.preventDefault(); ev.stopPropagation();
  goWave((pos < 0 ? 0 : WAVE[pos]) + by);
});
function timeline(n) {
  waves(n);
  const dpr = devicePixelRatio || 1, W = tlw, css = getComputedStyle(document.documentElement), seen = {},
    col = k => seen[k] || (seen[k] = css.getPropertyValue('--' + k).trim());
  if (W < 50) return;
  const key = W + '/' + dpr + '/' + col('bg'), IW = W - PADL - 4;
  cv.style.height = HT + 'px';
  const X = m => PADL + (N ? (m + 1) * IW / N : 0);
  if (key !== backKey) {
    backKey = key; cv.width = Math.round(W * dpr); cv.height = Math.round(HT * dpr);
    back = document.createElement('canvas'); back.width = cv.width; back.height = cv.height;
    const c = back.getContext('2d'); c.scale(dpr, dpr);
    c.fillStyle = col('soft'); c.fillRect(PADL, 0, IW, HC);
    c.fillStyle = col('accent'); c.globalAlpha = .55; c.beginPath(); c.moveTo(PADL, HC);
    for (let x = 0; x <= IW; x++) { const a = Math.floor(x * N / IW), b = Math.min(N, Math.max(a, Math.floor((x + 1) * N / IW) - 1)); let m = 0;
        for (let k = a; k <= b; k++) if (FIRST[k] - k > m) m = FIRST[k] - k; c.lineTo(PADL + x, HC - m * (HC - 3) / (TOP || 1)); }
    c.lineTo(PADL + IW, HC); c.fill(); c.globalAlpha = 1;
    const per = new Int32Array(E * IW * 6);  // of each element and column, how many events of each kind
    for (let m = 0; m < N; m++) per[(ELEMENT[m] * IW + Math.floor(m * IW / N)) * 6 + KIND[m]]++;
    for (let e = 0; e < E; e++) { c.fillStyle = col('soft'); c.fillRect(PADL, YL + e * LANE, IW, LANE - 1); }
    const cols = KINDS.map(col), bw = Math.max(1, IW / Math.max(1, N));
    for (let e = 0; e < E; e++) for (let x = 0; x < IW; x++) {
      const of = per.subarray((e * IW + x) * 6, (e * IW + x + 1) * 6), all = of.reduce((a, b) => a + b);
      let y = 0;
      for (let q = 0; q < 6; q++) if (of[q]) { const h = (LANE - 1) * of[q] / all; c.fillStyle = cols[q];
          c.fillRect(PADL + x, YL + e * LANE + y, bw > 3 ? bw - 1 : bw, h); y += h; }
    }
    c.fillStyle = col('dim'); c.font = '10px sans-serif'; c.textBaseline = 'middle';
    if (E > 1) for (let e = 0; e < E; e++) { if (LANE >= 9 || e % 4 === 0) c.fillText('el ' + e, 2, YL + e * LANE + LANE / 2); }
    c.textBaseline = 'alphabetic';
  }
  const c = cv.getContext('2d');
  c.setTransform(1, 0, 0, 1, 0, 0); c.clearRect(0, 0, cv.width, cv.height); c.drawImage(back, 0, 0); c.scale(dpr, dpr);
  const count = Math.max(3, Math.floor(IW / 58)), bw = IW / count, list = around(n, count), a = list[0] || 0, z = N ? list[list.length - 1] + 1 : 0;
  win = {list: list, w: bw};
  c.strokeStyle = col('ink'); c.lineWidth = 1.5; const xa = PADL + a * IW / (N || 1), xb = PADL + z * IW / (N || 1);
  c.globalAlpha = .35; c.beginPath(); c.moveTo(xa, YL + LANE * E); c.lineTo(PADL, YZ - 17); c.moveTo(xb, YL + LANE * E);
      c.lineTo(PADL + list.length * bw, YZ - 17); c.stroke(); c.globalAlpha = 1;
  const px = Math.min(PADL + IW - 1, X(n)); c.fillStyle = col('defer'); c.fillRect(px - 1, 0, 2, YL + LANE * E);
  c.beginPath(); c.moveTo(px - 5, 0); c.lineTo(px + 5, 0); c.lineTo(px, 7); c.fill();
  c.font = '11px ui-monospace,Menlo,Consolas,"Liberation Mono",monospace'; c.textAlign = 'center';
  for (let e = 0; e < (ONE ? 1 : E); e++) { c.fillStyle = col('soft'); c.fillRect(PADL, YZ + e * ZL, IW, ZL - 1);
      if (!ONE) { c.fillStyle = col('dim'); c.textAlign = 'left'; c.fillText('el ' + e, 2, YZ + e * ZL + ZL / 2 + 4); c.textAlign = 'center'; } }
  list.forEach((m, i) => {
    const x = PADL + i * bw, y = YZ + (ONE ? 0 : ELEMENT[m] * ZL), mid = y + (E > 6 ? 12 : ZL / 2);
    c.fillStyle = col(KINDS[KIND[m]]); c.fillRect(x + 1, y, bw - 2, ZL - 1);
    c.fillStyle = col('card'); c.fillRect(x + 2.5, y + 3.5, bw - 5, ZL - 6);
    c.fillStyle = m <= n ? col('ink') : col('faint');
    const s = verb(m);
    c.fillText(s.length * 6.7 > bw - 6 ? s.slice(0, Math.floor((bw - 8) / 6.7)) : s, x + bw / 2, mid + 3.5);
    if (E > 6) c.fillText('el ' + ELEMENT[m], x + bw / 2, mid + 18);
    if (m === n) { c.strokeStyle = col('defer'); c.lineWidth = 2; c.strokeRect(x + 1, y + 1, bw - 2, ZL - 3); }
    if (m === n || no(m) % 5 === 0) { c.fillStyle = m === n ? col('defer') : col('dim'); c.fillText(String(no(m)), x + bw / 2, YZ - 5); }
  });
  cv.setAttribute('aria-valuemin', no(-1)); cv.setAttribute('aria-valuemax', no(N - 1)); cv.setAttribute('aria-valuenow', no(n));
      cv.setAttribute('aria-valuetext', n < 0 ? 'start' : 'event ' + no(n) + ': ' + doing(n));
}
function jump(ev) {
  const r = cv.getBoundingClientRect(), x = ev.clientX - r.left - PADL, y = ev.clientY - r.top, IW = r.width - PADL - 4;
  go(y >= YZ - 14 ? win.list[Math.max(0, Math.min(win.list.length - 1, Math.floor(x / win.w)))] : Math.floor(x * N / IW));
}
let drag = false;
cv.addEventListener('pointerdown', ev => { drag = true; pause(); jump(ev); });
addEventListener('pointermove', ev => { if (drag && ev.clientY - cv.getBoundingClientRect().top < YZ - 14) jump(ev); });
addEventListener('pointerup', () => { drag = false; });

// ---- moving
let timer = null, hashing = null;
const hashOf = () => '#event=' + (pos < 0 ? 'start' : no(pos)) + ($('brief').checked ? '&without=copies' : '');
function putHash() { hashing = null; if (location.hash !== hashOf()) try { history.replaceState(null, '', hashOf()); } catch (x) {
    location.replace(hashOf()); } }
function setHash() { $('link').setAttribute('href', hashOf()); if (!hashing) hashing = setTimeout(putHash, 250); }
function focusPlace() {  // the focus stays at its place in a list that is made again
  const e = document.activeElement, box = e && e.closest('#info,#frames,#cells,#reqs,#toks'), of = () => [...box.querySelectorAll('button')];
  if (!box) return null;
  const k = of().indexOf(e);
  return () => { const all = of(), to = all[Math.min(k, all.length - 1)]; if (k >= 0 && to && !box.hidden) to.focus({preventScroll: true}); };
}
function show() {
  const refocus = focusPlace();
  if (ipOf(pos) >= 0) lastIp = ipOf(pos);
  if (pos >= 0 && isAtCell(pos)) lastCell = TO[TAKES[pos]];
  const n = pos, s = stateAt(n), f = $('fsel').value === 'f' ? follow : frameOf(n), pool = onTheWay(n);
  frameMenu(f);
  draw(blocksFor(n, f, s));
  fill($('say'), sentence(n), n === N - 1 ? ending() : '');
  $('say').setAttribute('aria-live', timer ? 'off' : 'polite');
  $('at').textContent = n < 0 ? 'start' + (D.first ? ', before event ' + D.first : '') + ', of ' + many(N, 'event') :
      'event ' + no(n) + ' (' + D.first + ' to ' + no(N - 1) + ')';
  $('first').disabled = $('back').disabled = n < 0; $('next').disabled = $('last').disabled = n >= N - 1;
  const focus = marks(n, s, pool, f);
  beside(n, s); lists(n, s, pool, f); info(n); timeline(n); setHash();
  if (refocus) refocus();
  reveal(focus, ipOf(n));
}
function go(n) { n = Math.max(-1, Math.min(N - 1, Math.trunc(n))); if (n !== n) return; pos = n; show(); }
function pause() { if (timer) { clearTimeout(timer); timer = null; $('play').textContent = 'Play'; }  }
function play() {
  if (timer) { pause(); return; }
  if (pos >= N - 1) pos = -1;
  $('play').textContent = 'Pause';
  let due = performance.now();
  const tick = () => {
    const rate = +$('speed').value, now = performance.now(), k = Math.max(1, Math.floor((now - due) * rate / 1000));
    let n = pos;
    due = now;
    for (let i = 0; i < k && n < N; i++) n = nextOf(n, 1);
    go(n);
    if (pos >= N - 1) { pause(); return; }
    timer = setTimeout(tick, Math.max(16, 1000 / rate));
  };
  timer = setTimeout(tick, Math.max(16, 1000 / +$('speed').value));
  show();
}
function fromHash() { const m = /event=(start|-?\d+)/.exec(location.hash); return m ? (m[1] === 'start' ? -1 : Math.min(N - 1, Math.max(-1, m[1] - D.first))) :
    null; }
$('first').onclick = () => { pause(); go(-1); }; $('back').onclick = () => step(-1);
    $('next').onclick = () => step(1); $('last').onclick = () => { pause(); go(N - 1); }; $('play').onclick = play;
$('goto').onchange = () => { const v = $('goto').value.trim(); if (/^\d+$/.test(v)) { pause(); go(v - D.first); } $('goto').value = ''; };
$('find').onkeydown = ev => { if (ev.key === 'Enter') find(); }; $('before').onclick = () => sameStep(-1); $('after').onclick = () => sameStep(1);
$('brief').onchange = () => { omitted(); show(); };
$('fsel').onchange = () => { if ($('fsel').value === 'f') follow = frameOf(pos); show(); };
$('bsel').onchange = () => { show(); }; $('zsel').onchange = () => { scale(); show(); };
addEventListener('keydown', ev => {
  const tag = ev.target.tagName;
  const box = tag === 'INPUT' && ev.target.type === 'checkbox';
  if (ev.key === 'Escape' && tag === 'INPUT') { ev.target.blur(); return; }
  if (ev.ctrlKey || ev.metaKey || ev.altKey || (tag === 'INPUT' && !box) || tag === 'SELECT') return;
  const act = ev.target.getAttribute && ev.target.getAttribute('role') === 'button', btn = box || tag === 'BUTTON' || tag === 'SUMMARY' || tag === 'A';
  if (act && (ev.key === 'Enter' || ev.key === ' ')) { ev.target.dispatchEvent(new MouseEvent('click', {bubbles: true})); ev.preventDefault(); return;
      }
  const k = ev.key;
  if (k === 'ArrowLeft') step(-1); else if (k === 'ArrowRight') step(1); else if (k === 'Home') { pause(); go(-1); }
      else if (k === 'End') { pause(); go(N - 1); }
  else if (k === 'n') sameStep(1); else if (k === 'p') sameStep(-1); else if (k === '/') $('find').focus(); else if (k === 'g') $('goto').focus();
  else if (k === 't' && TEXTS.length) setText(text ? TEXTS.indexOf(text) + 1 : 0);
  else if (k === 'Escape') choose(null); else if (k === ' ' && !btn) play(); else return;
  ev.preventDefault();
});
const isBrief = () => /without=copies/.test(location.hash);
addEventListener('hashchange', () => {
  const n = fromHash();
  if (n === null || (n === pos && isBrief() === $('brief').checked)) return;
  pause(); $('brief').checked = isBrief(); omitted(); go(n);
});
for (const b of document.querySelectorAll('#ctl [aria-label],#more button')) b.title = b.getAttribute('aria-label');
const measure = () => { tlw = $('tl').clientWidth - 22; };
addEventListener('resize', () => { measure(); scale(); timeline(pos); });
if (matchMedia) matchMedia('(prefers-color-scheme:dark)').addEventListener('change', () => timeline(pos));

// ---- begin
const total = BLOCKS.filter(b => b.used).reduce((a, b) => a + b.code.length, 0), idle = BLOCKS.filter(b => !b.used);
fill($('bsel'), el('option', {value: 'run'}, 'of this run'), el('option', {value: 'follow'}, 'of the event'), el('option', {value: 'all'}, 'all'),
    BLOCKS.map(b => el('option', {value: b.n}, bname(b) + (b.used ? '' : ', not used'))));
$('bsel').value = total <= 45 || BLOCKS.length - idle.length < 2 ? 'run' : 'follow';
function omitted() { $('note').textContent = ($('brief').checked ? 'Copies, syncs and sends are left out. ' : '') + (!idle.length ? '' :
    (D.first ? 'Not used by these events: ' : 'Not used in this run: ') + idle.map(bname).join(', ') + '.'); }
$('sub').textContent = [(D.first ? 'the last ' : '') + many(N, 'event'), many(E, 'element'), many(BLOCKS.length, 'code block'), many(CODE.length, 'instruction'),
    'end: ' + END].join(' \u00b7 ');
{ const m = /^main (\S+)$/m.exec($('source').textContent); if (m) { document.title = 'Run of ' + m[1] + ': ' + END; } }
for (const d of document.querySelectorAll('#plain details')) d.open = false;
$('app').hidden = false;
{ // the books must agree with the report
  const s = stateAt(N - 1), want = [];
  let readers = 0, credits = 0;
  s.cells.forEach(c => { readers += readersOf(c).length; }); s.slots.forEach(c => { if (HOLDS[c] === ASKS) credits++; });
  for (let p = 0; p < BLOCKS[MAIN].outs; p++) want.push('output ' + p + ' ' + (s.outs.has(p) ? changeOf(s.outs.get(p))[2] : '-'));
  for (const a of ARRAYS) for (let i = 0; i < a.len; i++) { const c = s.cells.get(a.base + i);
      if (TAG[c] === FILLED) want.push('cell ' + a.name.replace('array ', '') + ' ' + i + ' ' + changeOf(c)[2]); }
  want.push('deferred ' + readers, 'waiting ' + (s.queued - s.served) + ' ' + credits, 'frames ' + s.out.size);
  const off = want.findIndex((l, k) => l !== REPORT[k]);
  if (off >= 0) fail('The events of this page do not add up to its report: \u201c' + want[off] + '\u201d against \u201c' + REPORT[off] + '\u201d.');
}
frameMenu(0);
measure();
$('brief').checked = isBrief();
omitted();
const h = fromHash();
go(h === null ? -1 : h);
document.documentElement.setAttribute('data-ready', Math.round(performance.now()));
})();
</script>
</body>
</html>
"##;
